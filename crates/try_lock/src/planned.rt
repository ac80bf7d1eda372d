//! What a plan answers.

use machine_states::body_terms::{Place, Thunk, Word};

/// What a structure planned for a request.
#[derive(Clone, Copy, Debug, PartialEq, Eq)]
pub enum Planned {
    /// The thunk with which the request's section may be published.
    Thunk(Thunk),
    /// A lock is held: its place and its word, which names a descriptor.
    Busy(Place, Word),
    /// A free lock has no version left to be taken and released: its place and its word.
    Spent(Place, Word),
    /// A node that was reached has been taken out: its mark was to be 0, and is 1.
    Stale {
        place: Place,
        expected: Word,
        read: Word,
    },
    /// The walk loaded so many links and came to no end.
    Far {
        loads: u64,
    },
    /// The gate halted the runner.
    Halted,
}
