//! What becomes of the completed memory, on a contract.
ghost use Rattle.structure_laws.specs.table_words.specs.declared.layout.Layout.{Layout};
ghost use Rattle.structure_laws.specs.table_words.specs.Limits.{IsWithinLimits};
ghost use Rattle.completed_memory.specs.Moves.{MemoryMoves};

use structure_laws::Structure;

/// Over every structure: at first the completed memory stands for the empty map. Where a section gets its
/// stamp, it comes to stand for the map after the section's operation, and what the section answers is that
/// map's reply. A Store, a change of a lock or in the slot of a hand, and all that leaves the remaining
/// Stores alone, leave the map. Where nothing is pending, the cells themselves stand for it.
pub fn moves_keep_the_completed_memory<S: Structure>(structure: &S)
    ensures { (layout : Layout) → IsWithinLimits layout → MemoryMoves (S.meaning structure.now) layout }
{
    let _ = structure;
}
