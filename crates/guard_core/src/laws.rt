//! The laws of guards, each on a contract.
ghost use Rattle.std.specs.Prelude.{ℕ, ◌≡◌, ◌≤◌, List};
ghost use Rattle.guard_core.specs.State.{Counts, Location, GuardState};
ghost use Rattle.guard_core.specs.Events.{Event, LoadLast, Enabled, after};
ghost use Rattle.guard_core.specs.Sound.{IsSound};
ghost use Rattle.guard_core.specs.Schedules.{IsFirst, first_state, AllEnabled, after_all};
ghost use Rattle.guard_core.specs.Frame.{IsSame};
ghost use Rattle.guard_core.specs.Held.{HeldAreSafe, GivenToNobody, LeavesUnheld, LimboIsSmall};
ghost use Rattle.guard_core.specs.Owners.{StaysWithOwner, GoesRound};
ghost use Rattle.guard_core.specs.Lists.{Lists, IsListed, listed_all, Starts};
ghost use Rattle.guard_core.specs.Sweeps.{SweepsExactly, FreesUnnamed, LeavesEnough, IsNeverShort};
ghost use Rattle.guard_core.specs.Round.{ComesRound};

/// Every enabled event leads from a state that meets the invariant to one that meets it.
pub fn events_keep_the_invariant()
    ensures { (c : Counts) (w : GuardState) (e : Event) → Enabled c w e → IsSound c w → IsSound c (after w e) }
{}

/// Every list of enabled events leads from the first state to one that meets the invariant.
pub fn schedules_meet_the_invariant()
    ensures { (c : Counts) (descriptor block : ℕ → Location) (es : List Event) → IsFirst descriptor block
        → AllEnabled c (first_state descriptor block) es
        → IsSound c (after_all (first_state descriptor block) es) }
{}

/// After every list of enabled events each descriptor and each block stands exactly once in the list that its
/// place names, and in no other list of any runner.
pub fn all_stand_in_one_list()
    ensures { (c : Counts) (descriptor block : ℕ → Location) (l : ℕ → Lists) (es : List Event)
        → IsFirst descriptor block → IsListed c (first_state descriptor block) l
        → AllEnabled c (first_state descriptor block) es
        → IsListed c (after_all (first_state descriptor block) es)
        (listed_all (first_state descriptor block) l es) }
{}

/// With every descriptor and every block in the free lists of runner 0 the machine can start.
pub fn the_machine_can_start()
    ensures { (c : Counts) → Starts c }
{}

/// A state that differs in no field meets the invariant.
pub fn changes_elsewhere_keep_the_invariant()
    ensures { (c : Counts) (w w' : GuardState) → IsSame w w' → IsSound c w → IsSound c w' }
{}

/// After every list of enabled events, a descriptor that somebody is sure of is in no free list, and each
/// block that is linked in its publication is live or in limbo under it, so in no free list and in no hand.
/// Nobody may give them out.
pub fn held_descriptors_and_blocks_are_safe()
    ensures safe { (c : Counts) (descriptor block : ℕ → Location) (es : List Event) → IsFirst descriptor block
        → AllEnabled c (first_state descriptor block) es
        → HeldAreSafe (after_all (first_state descriptor block) es) }
    ensures given_out { (c : Counts) (descriptor block : ℕ → Location) (es : List Event) → IsFirst descriptor block
        → AllEnabled c (first_state descriptor block) es
        → GivenToNobody c (after_all (first_state descriptor block) es) }
{}

/// No event takes anything out of a limbo while somebody holds it.
pub fn limbos_are_left_late()
    ensures { (c : Counts) (w : GuardState) (e : Event) → Enabled c w e → IsSound c w
        → LeavesUnheld w (after w e) }
{}

/// After every list of enabled events each runner's limbo has at most eight blocks of each descriptor.
pub fn limbos_are_small()
    ensures { (c : Counts) (descriptor block : ℕ → Location) (es : List Event) → IsFirst descriptor block
        → AllEnabled c (first_state descriptor block) es
        → LimboIsSmall c (after_all (first_state descriptor block) es) }
{}

/// The end of a sweep frees exactly what lies in the own limbo under a descriptor that no guard word which
/// it read names: of that, nobody is sure of a descriptor, and no block is linked in a descriptor that
/// somebody is sure of. What no guard word names from the beginning of a sweep to its end is free behind it.
pub fn sweeps_free_what_no_guard_names()
    ensures exact { (c : Counts) (w : GuardState) (r : ℕ) → IsSound c w → Enabled c w (LoadLast r)
        → SweepsExactly w r }
    ensures unnamed { (c : Counts) → FreesUnnamed c }
{}

/// Of a runner's descriptors and blocks, each other guard word keeps at most one descriptor and eight blocks
/// at the end of its sweep. A runner with more descriptors than there are other guard words, with eight blocks
/// for each and eight more, has a free descriptor and sixteen free blocks after each sweep, whatever the
/// others do, and wherever one of them stops. The keeper's word doesn't count for a worker while it is empty.
pub fn sweeps_leave_enough()
    ensures few { (c : Counts) (w : GuardState) (r : ℕ) → IsSound c w → r ≤ c.runners
        → Enabled c w (LoadLast r) → LeavesEnough c w r }
    ensures enough { (c : Counts) → IsNeverShort c }
{}

/// Each descriptor and each block stays with its runner: no event moves it to another one's lists. It goes from
/// free to live, into limbo, and back.
pub fn nothing_changes_hands()
    ensures owner { (c : Counts) (w : GuardState) (e : Event) → Enabled c w e → IsSound c w
        → StaysWithOwner w (after w e) }
    ensures round { (c : Counts) (w : GuardState) (e : Event) → Enabled c w e → IsSound c w → GoesRound w (after w e) }
{}

/// An example in which every kind of event may come: a descriptor and a block are given out, retired, kept
/// by a helper's guard, and free again behind it.
pub fn a_block_comes_round()
    ensures { ComesRound }
{}
