//! The law of this crate, on a contract.
ghost use Rattle.std.specs.Prelude.{List};
ghost use Rattle.machine_states.specs.map_history.specs.declared.op.Request.{Request};
ghost use Rattle.machine_states.specs.table_words.specs.Limits.{IsWithinLimits};
ghost use Rattle.machine_states.specs.table_words.specs.declared.layout.Layout.{Layout};
ghost use Rattle.machine_states.specs.World.{World};
ghost use Rattle.machine_states.specs.Reached.{Reached};
ghost use Rattle.machine_states.specs.Sight.{sight};
ghost use Rattle.runner_facts.specs.machine_facts.specs.machine_invariant.specs.After.{AreAllowed};
ghost use Rattle.one_worker.specs.Alone.{OneWorkerStands};

use machine_states::structure_laws::Structure;

/// In every state that the machine reaches with one worker: while the worker has no section that it has published and
/// not yet run to its end, no lock names a section, and whoever still runs one finds it done. What the worker has read
/// in its walks since it entered stands as long as it has published nothing since, but for locks whose places its
/// readings don't give.
pub fn one_worker_stands<S: Structure>(structure: &S)
    ensures { (layout : Layout) (requests : List Request) (w : World) → IsWithinLimits layout → AreAllowed requests
        → Reached (S.meaning structure.now) layout requests w
        → OneWorkerStands (S.meaning structure.now) layout (sight (S.meaning structure.now) layout requests w) }
{
    let _ = structure;
}
