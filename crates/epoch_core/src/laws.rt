//! The laws of epochs and slots, each on a contract.
ghost use Rattle.std.specs.Prelude.{ℕ, Bool, List};
ghost use Rattle.epoch_core.specs.declared.location.Location.{Location};
ghost use Rattle.epoch_core.specs.State.{Counts, EpochState};
ghost use Rattle.epoch_core.specs.Events.{Event, Enabled, after};
ghost use Rattle.epoch_core.specs.Sound.{IsSound};
ghost use Rattle.epoch_core.specs.Schedules.{IsFirst, first_state, AllEnabled, after_all};
ghost use Rattle.epoch_core.specs.Lists.{Lists, IsListed, listed_all};
ghost use Rattle.epoch_core.specs.Starts.{Starts};
ghost use Rattle.epoch_core.specs.Round.{ComesRound};
ghost use Rattle.epoch_core.specs.Frame.{IsSame};
ghost use Rattle.epoch_core.specs.Reuse.{HeldAreSafe, LeavesLate, LeavesUnheld, LeavesNothingOld};
ghost use Rattle.epoch_core.specs.Follows.{MayFollow};
ghost use Rattle.epoch_core.specs.Commits.{MakeGoesOn, RetireGoesOn};
ghost use Rattle.epoch_core.specs.History.{History, no_history, noted, noted_all, IsExact, Lasts};
ghost use Rattle.epoch_core.specs.Freed.{FreedStay, SlotsMove};

/// Every enabled event leads from a state that meets the invariant to one that meets it.
pub fn events_keep_the_invariant()
    ensures { (c : Counts) (w : EpochState) (e : Event) → Enabled c w e → IsSound c w → IsSound c (after c w e) }
{}

/// Every list of enabled events leads from the first state to one that meets the invariant.
pub fn schedules_meet_the_invariant()
    ensures { (c : Counts) (location : ℕ → Location) (es : List Event) → IsFirst c location
        → AllEnabled c (first_state location) es → IsSound c (after_all c (first_state location) es) }
{}

/// After every list of enabled events each node slot and each descriptor stands exactly once in the list
/// that its location names, and in no other list of any runner.
pub fn slots_stand_in_one_list()
    ensures { (c : Counts) (location : ℕ → Location) (l : ℕ → Lists) (es : List Event) → IsFirst c location
        → IsListed c (first_state location) l → AllEnabled c (first_state location) es
        → IsListed c (after_all c (first_state location) es) (listed_all c (first_state location) l es) }
{}

/// With every slot in the free lists of runner 0 the machine can start.
pub fn the_machine_can_start()
    ensures { (c : Counts) → Starts c }
{}

/// An example in which every kind of step of a slot's life may come: a slot is made by one section, retired
/// by the next, and free again two epochs later.
pub fn a_slot_comes_round()
    ensures { ComesRound }
{}

/// A state that differs in no field meets the invariant and keeps the history exact.
pub fn changes_elsewhere_keep_the_invariant()
    ensures sound { (c : Counts) (w w' : EpochState) → IsSame w w' → IsSound c w → IsSound c w' }
    ensures exact { (c : Counts) (w w' : EpochState) (h : History) → IsSame w w' → IsExact c w h → IsExact c w' h }
{}

/// After every list of enabled events no held slot is in a free list, in a worn list or in a hand.
pub fn held_slots_are_safe()
    ensures { (c : Counts) (location : ℕ → Location) (es : List Event) → IsFirst c location
        → AllEnabled c (first_state location) es → HeldAreSafe (after_all c (first_state location) es) }
{}

/// A retired node slot leaves limbo only when two epochs have passed, nobody holds it, and whoever is entered
/// came later; a descriptor only where nobody holds it. The end of a scan takes every such node slot from the
/// runner's own limbo.
pub fn slots_leave_limbo_late()
    ensures late { (c : Counts) → LeavesLate c }
    ensures unheld { (c : Counts) → LeavesUnheld c }
    ensures all_old { (c : Counts) → LeavesNothingOld c }
{}

/// What has to be known of a link that an entered runner reads, for the runner to come to hold what the link names.
pub fn links_may_be_followed()
    ensures { (c : Counts) (w : EpochState) → IsSound c w → MayFollow c w }
{}

/// A Make goes on with the agreed slot, and its own slot comes back where its commit lost. A Retire moves
/// its slot into one limbo list where its commit won, and moves nothing where it lost.
pub fn lost_commits_give_back()
    ensures make { (c : Counts) (w : EpochState) (r d k s : ℕ) (worn : Bool) → MakeGoesOn c w r d k s worn }
    ensures retire { (c : Counts) (w : EpochState) (r : ℕ) → RetireGoesOn c w r }
{}

/// After every list of enabled events, each agreed Make and each agreed Retire of a section whose
/// descriptor isn't free again was committed by exactly one commit that won, and no Make and no Retire of
/// any section by two.
pub fn commits_are_won_once()
    ensures { (c : Counts) (location : ℕ → Location) (es : List Event) → IsFirst c location
        → AllEnabled c (first_state location) es
        → IsExact c (after_all c (first_state location) es) (noted_all c (first_state location) no_history es) }
{}

/// What was won stays won: an event adds to the history, and changes nothing that stands in it. It adds
/// nothing to what was won for a section whose descriptor is free again. A slot comes to be live only from
/// a hand, by one commit of a Make that won, and goes into limbo only from live, by one commit of a Retire
/// that won; a slot that leaves a hand otherwise goes back to that runner's free or worn list.
pub fn the_history_lasts()
    ensures stays { (c : Counts) (w : EpochState) (h : History) (e : Event) → Enabled c w e → IsSound c w
        → IsExact c w h
        → Lasts h (noted w h e) }
    ensures freed { (c : Counts) (w : EpochState) (h : History) (e : Event) → Enabled c w e → IsSound c w
        → FreedStay c w (after c w e) h (noted w h e) }
    ensures moves { (c : Counts) (w : EpochState) (h : History) (e : Event) → Enabled c w e → IsSound c w
        → IsExact c w h
        → SlotsMove c w (after c w e) h (noted w h e) }
{}
