//! The laws of the joint states with the history, each on a contract.
ghost use Rattle.agreement_core.specs.table_words.specs.declared.layout.Layout.{Layout};
ghost use Rattle.agreement_core.specs.table_words.specs.Limits.{IsWithinLimits};
ghost use Rattle.machine_history.specs.Laws.{FirstIsJoined, StepsKeepJoined, SchedulesKeepJoined, JoinedStands};

use agreement_core::section_lines::structure_laws::Structure;

/// Over every structure: the first states are joined, each enabled step keeps that, and so they are after
/// every list of enabled steps. The history's state is sound and has the words of the joint states, and the
/// completed memory stands for the history's map.
pub fn steps_keep_the_history<S: Structure>(structure: &S)
    ensures first { (layout : Layout) → IsWithinLimits layout → FirstIsJoined (S.meaning structure.now) layout }
    ensures steps { (layout : Layout) → IsWithinLimits layout → StepsKeepJoined (S.meaning structure.now) layout }
    ensures all { (layout : Layout) → IsWithinLimits layout → SchedulesKeepJoined (S.meaning structure.now) layout }
{
    let _ = structure;
}

/// What joined states say: the stamped requests, by stamp and then by number, are one legal history, and
/// the completed memory stands for its final map; the clock bounds the stamps; what is known stands. Where
/// no section is open, each stamped request has its reply, and the cells themselves stand for that map.
pub fn joined_histories_stand<S: Structure>(structure: &S)
    ensures { (layout : Layout) → IsWithinLimits layout → JoinedStands (S.meaning structure.now) layout }
{
    let _ = structure;
}
