//! The laws of the joined states, each on a contract.
ghost use Rattle.agreement_core.specs.table_words.specs.declared.layout.Layout.{Layout};
ghost use Rattle.agreement_core.specs.table_words.specs.Limits.{IsWithinLimits};
ghost use Rattle.machine_scenes.specs.Schedules.{FirstIsKept, SchedulesKeep, StepsKeep};
ghost use Rattle.machine_scenes.specs.Supplied.{KeptSupplies};

use agreement_core::section_lines::structure_laws::Structure;

/// Over every structure each step of the joined states keeps their invariant: agreement stays sound, and
/// epochs and slots, they show a lawful scene, each entered runner holds the slots that its readings meet,
/// each open section's publisher is still entered, and a retired slot that links one which is about to be
/// retired was retired no later than in the epoch that was loaded for it.
pub fn steps_keep_a_lawful_scene<S: Structure>(structure: &S)
    ensures { (layout : Layout) → IsWithinLimits layout → StepsKeep (S.meaning structure.now) layout }
{
    let _ = structure;
}

/// The first states meet the invariant, and so do the states after every list of enabled steps.
pub fn schedules_keep_a_lawful_scene<S: Structure>(structure: &S)
    ensures first { (layout : Layout) → IsWithinLimits layout → FirstIsKept (S.meaning structure.now) layout }
    ensures all { (layout : Layout) → IsWithinLimits layout → SchedulesKeep (S.meaning structure.now) layout }
{
    let _ = structure;
}

/// States that meet the invariant supply premises of both components' events. To agreement: a run that
/// loads a cell as the first of its section is alone there, no open section has come to a cell of a slot in
/// a hand, and a thunk that fits has a line that may be published. To epochs and slots: an entered runner
/// holds what its readings reach and may hold what it meets next, and a slot whose Retire comes next is a
/// live node slot that no other Retire names.
pub fn lawful_scenes_supply<S: Structure>(structure: &S)
    ensures { (layout : Layout) → IsWithinLimits layout → KeptSupplies (S.meaning structure.now) layout }
{
    let _ = structure;
}
