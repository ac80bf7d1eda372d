//! What a read of a request answers.
ghost use Rattle.std.specs.Prelude.{◌≡◌};
ghost use Rattle.seq_read.specs.Course.{read_of};

use machine_states::body_terms::{Place, Word};
use machine_states::map_history::Reply;

/// What one read of a request without a lock came to.
#[derive(Clone, Copy, Debug, PartialEq, Eq)]
pub enum Read {
    /// The request is served: its reply, and the odd stamp that orders it.
    Done {
        reply: Reply,
        stamp: u64,
    },
    /// The request's body changes something: the place of its first such step. It needs its lock.
    Locked {
        at: u32,
    },
    /// A lock was held: its place and its word.
    Busy {
        place: Place,
        word: Word,
    },
    /// A word was read, and then another one at the same place; or a node that was reached has been taken out.
    Stale {
        place: Place,
        expected: Word,
        read: Word,
    },
    /// The walk loaded so many links and came to no end.
    Far {
        loads: u64,
    },
    /// A lock or a cell has too few versions left: its place and its word.
    Spent {
        place: Place,
        word: Word,
    },
    /// The gate halted the runner.
    Halted,
}

/// What a look at a planned body came to. Its plan wasn't refused, so it is never `Far` and never `Spent`.
#[derive(Clone, Copy, Debug, PartialEq, Eq)]
pub enum Looked {
    Done {
        reply: Reply,
        stamp: u64,
    },
    Locked {
        at: u32,
    },
    Busy {
        place: Place,
        word: Word,
    },
    Stale {
        place: Place,
        expected: Word,
        read: Word,
    },
    Halted,
}

/// What a look came to, as the answer of its read.
#[inline(always)]
pub fn as_read(looked: Looked) -> Read
    ensures { result ≡ read_of looked }
{
    match looked {
        Looked::Done { reply, stamp } => Read::Done { reply, stamp },
        Looked::Locked { at } => Read::Locked { at },
        Looked::Busy { place, word } => Read::Busy { place, word },
        Looked::Stale {
            place,
            expected,
            read,
        } => Read::Stale {
            place,
            expected,
            read,
        },
        Looked::Halted => Read::Halted,
    }
}
