//! The law of this crate, on a contract.
ghost use Rattle.std.specs.Prelude.{List};
ghost use Rattle.machine_states.specs.map_history.specs.declared.op.Request.{Request};
ghost use Rattle.machine_states.specs.table_words.specs.Limits.{IsWithinLimits};
ghost use Rattle.machine_states.specs.table_words.specs.declared.layout.Layout.{Layout};
ghost use Rattle.machine_states.specs.World.{World};
ghost use Rattle.machine_states.specs.Reached.{Reached};
ghost use Rattle.machine_states.specs.Sight.{sight};
ghost use Rattle.runner_facts.specs.machine_facts.specs.machine_invariant.specs.After.{AreAllowed};
ghost use Rattle.one_worker.specs.Ungiven.{LoneBoardIsEmpty};

use machine_states::structure_laws::Structure;

/// In every state that the machine reaches with one worker, where each give of the worker's left it as many free slots
/// as it had at first: as long as the keeper's own steps have not met the epoch, the board is empty, and so it is behind
/// the worker's join, where they had not met it then. For until then nobody but the worker gets slots, and it has no
/// more than it had at first.
pub fn lone_board_is_empty<S: Structure>(structure: &S)
    ensures { (layout : Layout) (requests : List Request) (w : World) → IsWithinLimits layout → AreAllowed requests
        → Reached (S.meaning structure.now) layout requests w
        → LoneBoardIsEmpty layout (sight (S.meaning structure.now) layout requests w) }
{
    let _ = structure;
}
