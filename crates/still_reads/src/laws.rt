//! The law of standing readings, on a contract.
ghost use Rattle.agreement_core.specs.table_words.specs.declared.layout.Layout.{Layout};
ghost use Rattle.agreement_core.specs.table_words.specs.Limits.{IsWithinLimits};
ghost use Rattle.still_reads.specs.Standing.{WalksBegin, StepsKeepWalks};

use agreement_core::section_lines::structure_laws::Structure;

/// Over every structure: where an entered runner has read a lock free, and behind it a place that this lock guards,
/// the place holds what was read as long as the lock holds that word. It is so at first, and each enabled step
/// of the joint states keeps it.
pub fn readings_stand<S: Structure>(structure: &S)
    ensures first { WalksBegin (S.meaning structure.now) }
    ensures steps { (layout : Layout) → IsWithinLimits layout → StepsKeepWalks (S.meaning structure.now) layout }
{
    let _ = structure;
}
