//! That a stale section found another word, on a contract.
ghost use Rattle.std.specs.Prelude.{List};
ghost use Rattle.machine_states.specs.map_history.specs.declared.op.Request.{Request};
ghost use Rattle.machine_states.specs.table_words.specs.Limits.{IsWithinLimits};
ghost use Rattle.machine_states.specs.table_words.specs.declared.layout.Layout.{Layout};
ghost use Rattle.machine_states.specs.World.{World};
ghost use Rattle.machine_states.specs.Reached.{Reached};
ghost use Rattle.machine_states.specs.Sight.{sight};
ghost use Rattle.runner_facts.specs.machine_facts.specs.machine_invariant.specs.After.{AreAllowed};
ghost use Rattle.lock_words.specs.Stale.{StaleStand};

use machine_states::structure_laws::Structure;

/// In every state that the machine reaches: where a runner keeps of a section that it left since it found another word
/// than the expected one, it is another one. So it is of a further lock too: the word that is agreed behind the
/// exchange of its Take has a later version than the expected one.
pub fn stale_words_differ<S: Structure>(structure: &S)
    ensures { (layout : Layout) (requests : List Request) (w : World) → IsWithinLimits layout → AreAllowed requests
        → Reached (S.meaning structure.now) layout requests w
        → StaleStand (sight (S.meaning structure.now) layout requests w) }
{
    let _ = structure;
}
