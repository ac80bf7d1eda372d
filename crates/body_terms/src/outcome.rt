//! How a run of a section ends.

use crate::word::{Place, Word};

/// How a run of a section ended.
#[derive(Clone, Copy, Debug, PartialEq, Eq)]
pub enum Outcome {
    /// The run went through and gave this reply word.
    Answered(u64),
    /// A lock was held: its place and its word.
    Busy(Place, Word),
    /// A cell or a lock had another word than the section wants.
    Stale {
        place: Place,
        expected: Word,
        read: Word,
    },
    /// A cell or a free lock has no version left: its place and its word.
    Spent(Place, Word),
}

/// Why a lock wasn't got.
#[derive(Clone, Copy, Debug, PartialEq, Eq)]
pub enum Refused {
    /// The lock was held, with this word.
    Busy(Word),
    /// The lock had another word than expected.
    Stale { expected: Word, read: Word },
    /// The lock was free and has no version left to be taken and released.
    Spent(Word),
}
