//! What each step tells its runner: it was this event on the own part, its word had this number, and the machine
//! reaches a state in which the runner has the part after it and the word is what the event left there.
//!
//! A step can't be told a value, so where its event has an argument its name reads it off the part before, or off the
//! number of the word that the step met.
use crate::view::View;
use atomic_table::{Join, Play, Split};
use machine_states::body_terms::Thunk;
use machine_states::structure_laws::Structure;
use std::marker::PhantomData;

/// Which event a step is.
pub trait Named {
    ghost use Rattle.version_words.specs.Naming.{Naming};

    ghost naming: { Naming };
}

/// A step that is the event of this name.
pub struct Makes<S, E> {
    marker: PhantomData<(S, E)>,
}

impl<S: Structure, E: Named> Play<Thunk, View<S>> for Makes<S, E> {
    ghost use Rattle.version_words.specs.Rule.{Tells};

    ghost then = { Tells S.meaning E.naming };
}

pub struct EnterLoad;

impl Named for EnterLoad {
    ghost use Rattle.machine_states.specs.runner_parts.specs.declared.event.EventKind.TheVariants as kinds;

    ghost naming = { λ m layout requests part step. kinds.EnterLoad };
}

pub struct Announce;

impl Named for Announce {
    ghost use Rattle.machine_states.specs.runner_parts.specs.declared.event.EventKind.TheVariants as kinds;

    ghost naming = { λ m layout requests part step. kinds.Announce };
}

pub struct EnterAgain;

impl Named for EnterAgain {
    ghost use Rattle.machine_states.specs.runner_parts.specs.declared.event.EventKind.TheVariants as kinds;

    ghost naming = { λ m layout requests part step. kinds.EnterAgain };
}

pub struct Idle;

impl Named for Idle {
    ghost use Rattle.machine_states.specs.runner_parts.specs.declared.event.EventKind.TheVariants as kinds;

    ghost naming = { λ m layout requests part step. kinds.Idle };
}

pub struct ScanEpoch;

impl Named for ScanEpoch {
    ghost use Rattle.machine_states.specs.runner_parts.specs.declared.event.EventKind.TheVariants as kinds;

    ghost naming = { λ m layout requests part step. kinds.ScanEpoch };
}

pub struct Advance;

impl Named for Advance {
    ghost use Rattle.machine_states.specs.runner_parts.specs.declared.event.EventKind.TheVariants as kinds;

    ghost naming = { λ m layout requests part step. kinds.Advance };
}

pub struct Commit;

impl Named for Commit {
    ghost use Rattle.machine_states.specs.runner_parts.specs.declared.event.EventKind.TheVariants as kinds;

    ghost naming = { λ m layout requests part step. kinds.Commit };
}

pub struct ExchangeCell;

impl Named for ExchangeCell {
    ghost use Rattle.machine_states.specs.runner_parts.specs.declared.event.EventKind.TheVariants as kinds;

    ghost naming = { λ m layout requests part step. kinds.ExchangeCell };
}

pub struct SetDone;

impl Named for SetDone {
    ghost use Rattle.machine_states.specs.runner_parts.specs.declared.event.EventKind.TheVariants as kinds;

    ghost naming = { λ m layout requests part step. kinds.SetDone };
}

pub struct Release;

impl Named for Release {
    ghost use Rattle.machine_states.specs.runner_parts.specs.declared.event.EventKind.TheVariants as kinds;

    ghost naming = { λ m layout requests part step. kinds.Release };
}

pub struct ClockLoad;

impl Named for ClockLoad {
    ghost use Rattle.machine_states.specs.runner_parts.specs.declared.event.EventKind.TheVariants as kinds;

    ghost naming = { λ m layout requests part step. kinds.ClockLoad };
}

pub struct StampExchange;

impl Named for StampExchange {
    ghost use Rattle.machine_states.specs.runner_parts.specs.declared.event.EventKind.TheVariants as kinds;

    ghost naming = { λ m layout requests part step. kinds.StampExchange };
}

pub struct ClockRaise;

impl Named for ClockRaise {
    ghost use Rattle.machine_states.specs.runner_parts.specs.declared.event.EventKind.TheVariants as kinds;

    ghost naming = { λ m layout requests part step. kinds.ClockRaise };
}

pub struct ReplyExchange;

impl Named for ReplyExchange {
    ghost use Rattle.machine_states.specs.runner_parts.specs.declared.event.EventKind.TheVariants as kinds;

    ghost naming = { λ m layout requests part step. kinds.ReplyExchange };
}

pub struct NestedLoad;

impl Named for NestedLoad {
    ghost use Rattle.machine_states.specs.runner_parts.specs.declared.event.EventKind.TheVariants as kinds;

    ghost naming = { λ m layout requests part step. kinds.NestedLoad };
}

pub struct NestedHold;

impl Named for NestedHold {
    ghost use Rattle.machine_states.specs.runner_parts.specs.declared.event.EventKind.TheVariants as kinds;

    ghost naming = { λ m layout requests part step. kinds.NestedHold };
}

pub struct OutcomeLoad;

impl Named for OutcomeLoad {
    ghost use Rattle.machine_states.specs.runner_parts.specs.declared.event.EventKind.TheVariants as kinds;

    ghost naming = { λ m layout requests part step. kinds.OutcomeLoad };
}

pub struct OutcomeCommit;

impl Named for OutcomeCommit {
    ghost use Rattle.machine_states.specs.runner_parts.specs.declared.event.EventKind.TheVariants as kinds;

    ghost naming = { λ m layout requests part step. kinds.OutcomeCommit };
}

pub struct LoadDone;

impl Named for LoadDone {
    ghost use Rattle.machine_states.specs.runner_parts.specs.declared.event.EventKind.TheVariants as kinds;

    ghost naming = { λ m layout requests part step. kinds.LoadDone };
}

/// In a run the thunk word is the one that comes next; outside it is the first of a descriptor, read off the step's
/// word.
pub struct LoadThunk;

impl Named for LoadThunk {
    ghost use Rattle.std.specs.Prelude.{◌+◌, ◌-◌, ◌/◌, length};
    ghost use Rattle.machine_states.specs.table_words.specs.Places.{descriptor_at, descriptor_words};
    ghost use Rattle.machine_states.specs.runner_steps.specs.Asks.{sizes_for};
    ghost use Rattle.version_words.specs.Naming.{open_of};

    ghost naming = { λ m layout requests part step.
        open_of part.run ((step.word - descriptor_at (sizes_for m layout requests) 0) / descriptor_words) };
}

/// In a run the cell is the one that comes next; outside it is read off the step's word.
pub struct LoadCell;

impl Named for LoadCell {
    ghost use Rattle.std.specs.Prelude.{◌-◌};
    ghost use Rattle.machine_states.specs.table_words.specs.Places.{cells_at};
    ghost use Rattle.machine_states.specs.runner_steps.specs.Asks.{sizes_for};
    ghost use Rattle.version_words.specs.Naming.{load_of};

    ghost naming = { λ m layout requests part step.
        load_of part.run (step.word - cells_at (sizes_for m layout requests)) };
}

/// The thunk is the one that the step announces, and the descriptor is read off the word that is to stand in the lock.
pub struct Hold;

impl Named for Hold {
    ghost use Rattle.std.specs.Prelude.{◌-◌};
    ghost use Rattle.machine_states.specs.body_terms.specs.Word.{value_of};
    ghost use Rattle.version_words.specs.Naming.{hold_of};

    ghost naming = { λ m layout requests part step. hold_of step.said (value_of step.second - 1) };
}

/// The slot and its word are read off the step's word, the number is the one that is stored.
pub struct PrivateStore;

impl Named for PrivateStore {
    ghost use Rattle.machine_states.specs.runner_parts.specs.declared.event.EventKind.TheVariants as kinds;
    ghost use Rattle.version_words.specs.Private.{slot_at, word_at};

    ghost naming = { λ m layout requests part step.
        kinds.PrivateStore (slot_at m layout requests step.word) (word_at m layout requests step.word)
        step.first };
}

/// The slot and its word are read off the step's word.
pub struct PrivateLoad;

impl Named for PrivateLoad {
    ghost use Rattle.machine_states.specs.runner_parts.specs.declared.event.EventKind.TheVariants as kinds;
    ghost use Rattle.version_words.specs.Private.{slot_at, word_at};

    ghost naming = { λ m layout requests part step.
        kinds.PrivateLoad (slot_at m layout requests step.word) (word_at m layout requests step.word) };
}

pub struct MakeCommit;

impl Named for MakeCommit {
    ghost use Rattle.machine_states.specs.runner_parts.specs.declared.event.EventKind.TheVariants as kinds;

    ghost naming = { λ m layout requests part step. kinds.MakeCommit };
}

/// The block is read off the link that is to come.
pub struct LinkCommit;

impl Named for LinkCommit {
    ghost use Rattle.std.specs.Prelude.{◌-◌};
    ghost use Rattle.machine_states.specs.runner_parts.specs.declared.event.EventKind.TheVariants as kinds;

    ghost naming = { λ m layout requests part step. kinds.LinkCommit (step.second - 1) };
}

pub struct RetireCommit;

impl Named for RetireCommit {
    ghost use Rattle.machine_states.specs.runner_parts.specs.declared.event.EventKind.TheVariants as kinds;

    ghost naming = { λ m layout requests part step. kinds.RetireCommit };
}

pub struct EpochForRetire;

impl Named for EpochForRetire {
    ghost use Rattle.machine_states.specs.runner_parts.specs.declared.event.EventKind.TheVariants as kinds;

    ghost naming = { λ m layout requests part step. kinds.EpochForRetire };
}

/// What the guard word is to name is read off the number that is stored.
pub struct Guard;

impl Named for Guard {
    ghost use Rattle.machine_states.specs.runner_parts.specs.declared.event.EventKind.TheVariants as kinds;
    ghost use Rattle.version_words.specs.Naming.{guarded_by};

    ghost naming = { λ m layout requests part step. kinds.Guard (guarded_by step.first) };
}

/// The guard word is the one that comes next in the sweep.
pub struct LoadGuard;

impl Named for LoadGuard {
    ghost use Rattle.std.specs.Prelude.{length};
    ghost use Rattle.machine_states.specs.runner_parts.specs.declared.event.EventKind.TheVariants as kinds;

    ghost naming = { λ m layout requests part step. kinds.LoadGuard (length part.guards.looked) };
}

/// The announcement is the one that comes next.
pub struct ScanOne;

impl Named for ScanOne {
    ghost use Rattle.runner_block.specs.Scans.{scan_of};

    ghost naming = { λ m layout requests part step. scan_of part.stage };
}

/// The request and its word are read off the step's word.
pub struct LoadEntry;

impl Named for LoadEntry {
    ghost use Rattle.std.specs.Prelude.{◌-◌};
    ghost use Rattle.machine_states.specs.table_words.specs.Places.{entries_at};
    ghost use Rattle.machine_states.specs.runner_steps.specs.Asks.{sizes_for};
    ghost use Rattle.version_words.specs.Naming.{entry_of};

    ghost naming = { λ m layout requests part step.
        entry_of (step.word - entries_at (sizes_for m layout requests)) };
}

/// A read without a lock is announced: the thunk is the one that the step announces.
pub struct ReadPlan;

impl Named for ReadPlan {
    ghost use Rattle.version_words.specs.Naming.{plan_of};

    ghost naming = { λ m layout requests part step. plan_of step.said };
}

pub struct ReadClock;

impl Named for ReadClock {
    ghost use Rattle.machine_states.specs.runner_parts.specs.declared.event.EventKind.TheVariants as kinds;

    ghost naming = { λ m layout requests part step. kinds.ReadClock };
}

pub struct ReadReply;

impl Named for ReadReply {
    ghost use Rattle.machine_states.specs.runner_parts.specs.declared.event.EventKind.TheVariants as kinds;

    ghost naming = { λ m layout requests part step. kinds.ReadReply };
}

pub struct ReadStamp;

impl Named for ReadStamp {
    ghost use Rattle.machine_states.specs.runner_parts.specs.declared.event.EventKind.TheVariants as kinds;

    ghost naming = { λ m layout requests part step. kinds.ReadStamp };
}

/// The word of the board is read off the step's word.
pub struct BoardLoad;

impl Named for BoardLoad {
    ghost use Rattle.std.specs.Prelude.{◌-◌};
    ghost use Rattle.machine_states.specs.table_words.specs.Places.{board_at};
    ghost use Rattle.machine_states.specs.runner_parts.specs.declared.event.EventKind.TheVariants as kinds;
    ghost use Rattle.machine_states.specs.runner_steps.specs.Asks.{sizes_for};

    ghost naming = { λ m layout requests part step.
        kinds.BoardLoad (step.word - board_at (sizes_for m layout requests)) };
}

/// The word of the board is read off the step's word, the link is the number that is to go.
pub struct BoardTake;

impl Named for BoardTake {
    ghost use Rattle.std.specs.Prelude.{◌-◌};
    ghost use Rattle.machine_states.specs.table_words.specs.Places.{board_at};
    ghost use Rattle.machine_states.specs.runner_parts.specs.declared.event.EventKind.TheVariants as kinds;
    ghost use Rattle.machine_states.specs.runner_steps.specs.Asks.{sizes_for};

    ghost naming = { λ m layout requests part step.
        kinds.BoardTake (step.word - board_at (sizes_for m layout requests)) step.first };
}

/// The word of the board is read off the step's word, the slot off the link that is to come.
pub struct BoardGive;

impl Named for BoardGive {
    ghost use Rattle.std.specs.Prelude.{◌-◌};
    ghost use Rattle.machine_states.specs.table_words.specs.Places.{board_at};
    ghost use Rattle.machine_states.specs.runner_parts.specs.declared.event.EventKind.TheVariants as kinds;
    ghost use Rattle.machine_states.specs.runner_steps.specs.Asks.{sizes_for};

    ghost naming = { λ m layout requests part step.
        kinds.BoardGive (step.word - board_at (sizes_for m layout requests)) (step.second - 1) };
}

/// The keeper splits off the next worker.
pub struct SplitsOff<S> {
    marker: PhantomData<S>,
}

impl<S: Structure> Split<View<S>> for SplitsOff<S> {
    ghost use Rattle.version_words.specs.Rule.{splitting, split_off};

    ghost left = { λ v. splitting S.meaning v v.structure };

    ghost right = { λ v. split_off S.meaning v v.structure };
}

/// The keeper joins a worker.
pub struct Joins<S> {
    marker: PhantomData<S>,
}

impl<S: Structure> Join<View<S>> for Joins<S> {
    ghost use Rattle.version_words.specs.Rule.{joining, spent};

    ghost both = { λ v w. joining S.meaning v w v.structure };

    ghost spent = { spent };
}
