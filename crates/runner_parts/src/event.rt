//! What a runner may do next.

use structure_laws::body_terms::{Place, Thunk};

/// One kind of atomic step, with the arguments that the runner chooses.
#[derive(Clone, Copy, Debug, PartialEq, Eq)]
pub enum EventKind {
    EnterLoad,
    Announce,
    EnterAgain,
    Idle,
    ScanEpoch,
    /// Carries the announcement's number.
    ScanOne(u32),
    Advance,
    Split,
    Commit,
    /// Carries the place outside a run, and None in a run.
    LoadCell(Option<Place>),
    ExchangeCell,
    /// Descriptors are numbered after the node slots, and blocks after the descriptors; `word` counts within the slot.
    PrivateLoad { slot: u32, word: u32 },
    PrivateStore { slot: u32, word: u32, number: u64 },
    MakeCommit,
    RetireCommit,
    EpochForRetire,
    /// Carries the descriptor at the start of a run, and None for the later thunk words.
    LoadThunk(Option<u32>),
    LoadDone,
    Hold { thunk: Thunk, descriptor: u32 },
    SetDone,
    Release,
    ClockLoad,
    StampExchange,
    ClockRaise,
    ReplyExchange,
    /// Carries the worker.
    Join(u32),
    /// `reply` is true for the reply word.
    LoadEntry { request: u32, reply: bool },
    NestedLoad,
    NestedHold,
    OutcomeLoad,
    OutcomeCommit,
    /// Carries the own block whose number goes into the link behind the section's last one.
    LinkCommit(u32),
    /// Carries the word of the board.
    BoardLoad(u32),
    /// Carries the word of the board and the link that the runner read there last: it takes the slot.
    BoardTake(u32, u64),
    /// Carries the word of the board and the own free node slot that goes there.
    BoardGive(u32, u32),
    /// Carries the thunk that a read without a lock has planned, and announces it.
    ReadPlan(Thunk),
    /// The load of the clock for a read without a lock.
    ReadClock,
    ReadReply,
    ReadStamp,
    /// Carries the descriptor that the own guard word names from then on, and None where it names none.
    Guard(Option<u32>),
    /// Carries the runner whose guard word a sweep reads.
    LoadGuard(u32),
}

/// One step of one runner. Workers are numbered from 0, and the keeper has the number after the last.
#[derive(Clone, Copy, Debug, PartialEq, Eq)]
pub struct Event {
    pub runner: u32,
    pub kind: EventKind,
}
