//! What is known of the words by which sections left that found a lock held, on a contract.
ghost use Rattle.std.specs.Prelude.{List};
ghost use Rattle.machine_states.specs.map_history.specs.declared.op.Request.{Request};
ghost use Rattle.machine_states.specs.table_words.specs.Limits.{IsWithinLimits};
ghost use Rattle.machine_states.specs.table_words.specs.declared.layout.Layout.{Layout};
ghost use Rattle.machine_states.specs.World.{World};
ghost use Rattle.machine_states.specs.Reached.{Reached};
ghost use Rattle.runner_facts.specs.machine_facts.specs.machine_invariant.specs.After.{AreAllowed};
ghost use Rattle.lock_words.specs.Taken.{TakenStand};

use machine_states::structure_laws::Structure;

/// In every state that the machine reaches: take a word by which a section left since it found a lock held, as a runner
/// keeps it. It names a descriptor, and the lock has that word still, or the section that held it was done.
pub fn taken_names_stand<S: Structure>(structure: &S)
    ensures { (layout : Layout) (requests : List Request) (w : World) → IsWithinLimits layout → AreAllowed requests
        → Reached (S.meaning structure.now) layout requests w
        → TakenStand (S.meaning structure.now) layout requests w }
{
    let _ = structure;
}
