//! What comes of an offer.

use hash_table::lock_walks::try_lock::Section;
use machine_states::body_terms::Refused;

/// What came of a worker's offer.
#[derive(Clone, Copy, Debug, PartialEq, Eq)]
pub enum Offer {
    /// Its section is published.
    Published(Section),
    /// Another section was, or the lock's word has changed.
    Refused(Refused),
    /// It wasn't made.
    None,
}
