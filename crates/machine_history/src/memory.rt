//! The laws of the completed memory in the joint states, each on a contract.
ghost use Rattle.agreement_core.specs.table_words.specs.declared.layout.Layout.{Layout};
ghost use Rattle.agreement_core.specs.table_words.specs.Limits.{IsWithinLimits};
ghost use Rattle.machine_history.specs.Memory.{FirstMemoryStands, StepsKeepMemory, StampsAnswer, StampsApart, ClosedMemoryStands};
ghost use Rattle.machine_history.specs.Memory.{LooksAnswer, LooksLeave, LooksApart};

use agreement_core::section_lines::structure_laws::Structure;

/// Over every structure: at first the completed memory stands for the empty map. The first exchange of a
/// section's stamp leads it on to the map after the section's operation, and every other step leaves the
/// map. Where no section is open, the cells themselves stand for it.
pub fn steps_keep_the_memory<S: Structure>(structure: &S)
    ensures first { (layout : Layout) → IsWithinLimits layout → FirstMemoryStands (S.meaning structure.now) layout }
    ensures steps { (layout : Layout) → IsWithinLimits layout → StepsKeepMemory (S.meaning structure.now) layout }
    ensures closed { (layout : Layout) → IsWithinLimits layout → ClosedMemoryStands (S.meaning structure.now) layout }
{
    let _ = structure;
}

/// Over every structure that serves a map: where a run is the first at the exchange of its section's stamp,
/// the section answers what the map answers for which the completed memory stands. Two open sections that
/// stand at their Stamps have no key in common.
pub fn stamps_answer_the_map<S: Structure>(structure: &S)
    ensures answers { (layout : Layout) → IsWithinLimits layout → StampsAnswer (S.meaning structure.now) layout }
    ensures apart { (layout : Layout) → IsWithinLimits layout → StampsApart (S.meaning structure.now) layout }
{
    let _ = structure;
}

/// Over every structure that serves a map: where a runner's look stands, its thunk answers what the map answers for
/// which the completed memory stands, and its operation leaves that map. No open section that stands at its
/// Stamp has a key in common with it.
pub fn looks_answer_the_map<S: Structure>(structure: &S)
    ensures answers { (layout : Layout) → IsWithinLimits layout → LooksAnswer (S.meaning structure.now) layout }
    ensures leaves { (layout : Layout) → IsWithinLimits layout → LooksLeave (S.meaning structure.now) layout }
    ensures apart { (layout : Layout) → IsWithinLimits layout → LooksApart (S.meaning structure.now) layout }
{
    let _ = structure;
}
