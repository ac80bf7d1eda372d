//! The atomic steps that a body is made of.

use crate::word::{Place, Word};

/// A value with its register resolved: a number, or the value of an agreed word.
///
/// The agreed word of a `Make` is its slot's link, so a made slot's link is the value of that word.
#[derive(Clone, Copy, Debug, PartialEq, Eq)]
pub enum Source {
    /// This number.
    Fixed(u32),
    /// The value of the agreed word at this place of the log.
    Agreed(u32),
}

/// One atomic step of a run, with its registers resolved to places and to places of the log.
///
/// `log` is the place in the log of the word that the step commits, or that it goes by. The four
/// checks are no steps on the shared words: a run goes on behind one that passes, and leaves at one
/// that doesn't.
#[derive(Clone, Copy, Debug, PartialEq, Eq)]
pub enum Micro {
    /// `Load`: loads the cell.
    LoadCell {
        place: Place,
        log: u32,
    },
    /// `Load`: commits the word that was loaded.
    Commit {
        place: Place,
        log: u32,
    },
    /// `Want`: checks that the agreed word is this one.
    CheckWord {
        place: Place,
        log: u32,
        word: Word,
    },
    /// `Fresh`: checks that the agreed word's version isn't the greatest.
    CheckFresh {
        place: Place,
        log: u32,
    },
    /// `Take`: loads the lock.
    NestedLoad {
        place: Place,
        log: u32,
    },
    /// `Take`: commits the lock word that was loaded.
    NestedCommit {
        place: Place,
        log: u32,
    },
    /// `Take`: checks that the agreed word is this free one, and isn't spent.
    CheckFree {
        place: Place,
        log: u32,
        word: Word,
    },
    /// `Take`: exchanges the lock from this free word to the held one.
    NestedHold {
        place: Place,
        word: Word,
    },
    /// `Take`: loads the lock again.
    OutcomeLoad {
        place: Place,
        log: u32,
    },
    /// `Take`: commits what the lock was found to hold.
    OutcomeCommit {
        place: Place,
        log: u32,
    },
    /// `Take`: checks that the agreed word is the held one, by which this section holds the lock.
    CheckHeld {
        place: Place,
        log: u32,
        word: Word,
    },
    /// `Make`: loads this cell of the slot in the own hand.
    PrivateLoad {
        cell: u32,
        log: u32,
    },
    /// `Make`: stores this cell of the slot in the own hand.
    PrivateStore {
        cell: u32,
        log: u32,
        value: Source,
    },
    /// `Make`: commits the slot.
    MakeCommit {
        log: u32,
    },
    /// `Stamp`: loads the clock.
    ClockLoad,
    /// `Stamp`: exchanges the request's stamp word from 0.
    StampExchange,
    /// `Stamp`: raises the clock to half of the agreed stamp.
    ClockRaise,
    /// `Store`: exchanges the cell from the agreed word to the next word with this value.
    ExchangeCell {
        place: Place,
        log: u32,
        value: Source,
    },
    /// `Retire`: loads the epoch.
    EpochForRetire {
        slot: u32,
        log: u32,
    },
    /// `Retire`: commits the slot.
    RetireCommit {
        slot: u32,
        log: u32,
    },
    /// `Answer`: exchanges the request's reply word from 0.
    ReplyExchange {
        reply: u64,
    },
    /// The line is over.
    End,
    /// At the end: exchanges the done word from 0 to 1.
    SetDone,
    /// At the end: releases the lock that was free with this word before the section took it.
    Release {
        place: Place,
        word: Word,
    },
}
