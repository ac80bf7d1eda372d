//! The laws of slots in hands and of locks, each on a contract.
ghost use Rattle.agreement_core.specs.table_words.specs.declared.layout.Layout.{Layout};
ghost use Rattle.agreement_core.specs.table_words.specs.Limits.{IsWithinLimits};
ghost use Rattle.machine_slots.specs.Laws.{FreeSlotsAreUnlocked, HandsBegin, HandsStand, LocksStayHeld, SlotsStayFilled, StoresAreSupplied};

use agreement_core::section_lines::structure_laws::Structure;

/// Over every structure: as long as each publisher of a section that isn't retired holds the slots in which
/// the section's locks stand, no step changes a cell of a slot that is in a hand, in a free list or worn,
/// but a Make's store to that cell.
pub fn free_slots_stand<S: Structure>(structure: &S)
    ensures { (layout : Layout) → IsWithinLimits layout → HandsStand (S.meaning structure.now) layout }
{
    let _ = structure;
}

/// Publishers go on to be entered and to hold those slots, over each step but one in which a publisher
/// leaves whose section isn't retired.
pub fn publishers_hold_their_locks<S: Structure>(structure: &S)
    ensures { (layout : Layout) → IsWithinLimits layout → LocksStayHeld (S.meaning structure.now) layout }
{
    let _ = structure;
}

/// Where they do, a lock in a slot that is in a hand, in a free list or worn is free.
pub fn locks_in_free_slots_are_free<S: Structure>(structure: &S)
    ensures { (layout : Layout) → IsWithinLimits layout → FreeSlotsAreUnlocked (S.meaning structure.now) layout }
{
    let _ = structure;
}

/// What a Make has stored into its slot stands there, and what its run has loaded of the next cell, over each step.
pub fn makes_find_what_they_stored<S: Structure>(structure: &S)
    ensures { (layout : Layout) → IsWithinLimits layout → SlotsStayFilled (S.meaning structure.now) layout }
{
    let _ = structure;
}

/// So the states supply what a Make asks for: each private store is of the next version, into a cell that
/// no open section has come to, and leaves a lock free; and at the commit each cell has the value that the
/// Make gives it.
pub fn makes_are_supplied<S: Structure>(structure: &S)
    ensures { (layout : Layout) → IsWithinLimits layout → StoresAreSupplied (S.meaning structure.now) layout }
{
    let _ = structure;
}

/// The first states meet all that these laws ask for.
pub fn first_states_meet_it<S: Structure>(structure: &S)
    ensures { HandsBegin (S.meaning structure.now) }
{
    let _ = structure;
}
