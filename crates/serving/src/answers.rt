//! What the serving of a list of requests answers.

use attempt_bounds::attempts::epoch_slots::Short;
use machine_states::body_terms::{Place, Word};

/// What the serving of a list of requests came to. Where it stopped, it stopped at the request behind those that are
/// served, and the others behind that one weren't attempted.
#[derive(Clone, Copy, Debug, PartialEq, Eq)]
pub enum Served {
    /// Each request is served, and no ask halted the runner.
    All,
    /// Too few slots of a kind were free, and the attempt isn't tried again.
    Short(Short),
    /// A lock or a cell has too few versions left: its place and its word.
    Spent { place: Place, word: Word },
    /// The gate halted the runner.
    Halted,
}
