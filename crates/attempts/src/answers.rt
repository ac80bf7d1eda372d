//! What an attempt of a request answers.

use caller_facts::lock_walks::epoch_slots::Short;
use machine_states::body_terms::{Place, Word};
use machine_states::map_history::Reply;

/// What one attempt of a request came to.
#[derive(Clone, Copy, Debug, PartialEq, Eq)]
pub enum Attempt {
    /// The request is served: its reply, and the stamp that orders it.
    Done {
        reply: Reply,
        stamp: u64,
    },
    /// A lock was held: its place and its word. The section that the word names is done.
    Busy {
        place: Place,
        word: Word,
    },
    /// A word was read, and then another one at the same place; or a node that was reached has been taken out.
    Stale {
        place: Place,
        expected: Word,
        read: Word,
    },
    /// The walk loaded so many links and came to no end.
    Far {
        loads: u64,
    },
    /// Too few slots of a kind were free.
    Short(Short),
    /// A lock or a cell has too few versions left: its place and its word.
    Spent {
        place: Place,
        word: Word,
    },
    /// The gate halted the runner.
    Halted,
}
