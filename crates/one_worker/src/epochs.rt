//! The law of this crate, on a contract.
ghost use Rattle.std.specs.Prelude.{List};
ghost use Rattle.machine_states.specs.map_history.specs.declared.op.Request.{Request};
ghost use Rattle.machine_states.specs.table_words.specs.declared.layout.Layout.{Layout};
ghost use Rattle.machine_states.specs.World.{World};
ghost use Rattle.machine_states.specs.Reached.{Reached};
ghost use Rattle.machine_states.specs.Sight.{sight};
ghost use Rattle.one_worker.specs.Uncrossed.{OneWorkerIsUncrossed};

use machine_states::structure_laws::Structure;

/// In every state that the machine reaches with one worker: as long as the worker isn't joined and the keeper's own
/// steps have not met the epoch, the epoch is what the worker's steps left it, the worker's scans met no announcement
/// but idle ones and its sweeps no guard word that names a descriptor, and the keeper is idle. So where the keeper met
/// the epoch only behind its join, nobody crossed the worker's steps for good.
pub fn one_worker_is_uncrossed<S: Structure>(structure: &S)
    ensures { (layout : Layout) (requests : List Request) (w : World)
        → Reached (S.meaning structure.now) layout requests w
        → OneWorkerIsUncrossed layout (sight (S.meaning structure.now) layout requests w) }
{
    let _ = structure;
}
