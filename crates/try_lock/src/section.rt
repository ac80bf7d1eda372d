//! A published section.

use machine_states::body_terms::{Place, Word};

/// A section that its runner published and hasn't retired.
#[derive(Clone, Copy, Debug, PartialEq, Eq)]
pub struct Section {
    /// The descriptor that holds its thunk and its log.
    pub descriptor: u32,
    /// Its outer lock.
    pub place: Place,
    /// The word with which it holds that lock.
    pub held: Word,
}
