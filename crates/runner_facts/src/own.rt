//! The law of this crate, on a contract.
ghost use Rattle.std.specs.Prelude.{List};
ghost use Rattle.machine_states.specs.map_history.specs.declared.op.Request.{Request};
ghost use Rattle.machine_states.specs.table_words.specs.Limits.{IsWithinLimits};
ghost use Rattle.machine_states.specs.table_words.specs.declared.layout.Layout.{Layout};
ghost use Rattle.machine_states.specs.World.{World};
ghost use Rattle.machine_states.specs.Reached.{Reached};
ghost use Rattle.machine_states.specs.Sight.{sight};
ghost use Rattle.machine_facts.specs.machine_invariant.specs.After.{AreAllowed};
ghost use Rattle.runner_facts.specs.Own.{OwnStand};

use machine_states::structure_laws::Structure;

/// In every state that the machine reaches, each of a worker's own descriptors, by its number, is free, in limbo or
/// published, with that worker.
pub fn own_descriptors_stand<S: Structure>(structure: &S)
    ensures { (layout : Layout) (requests : List Request) (w : World) → IsWithinLimits layout → AreAllowed requests
        → Reached (S.meaning structure.now) layout requests w
        → OwnStand layout (sight (S.meaning structure.now) layout requests w) }
{
    let _ = structure;
}
