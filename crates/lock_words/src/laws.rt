//! What is known of spent words, on a contract.
ghost use Rattle.std.specs.Prelude.{List};
ghost use Rattle.machine_states.specs.map_history.specs.declared.op.Request.{Request};
ghost use Rattle.machine_states.specs.table_words.specs.Limits.{IsWithinLimits};
ghost use Rattle.machine_states.specs.table_words.specs.declared.layout.Layout.{Layout};
ghost use Rattle.machine_states.specs.World.{World};
ghost use Rattle.machine_states.specs.Reached.{Reached};
ghost use Rattle.machine_states.specs.Sight.{sight};
ghost use Rattle.runner_facts.specs.machine_facts.specs.machine_invariant.specs.After.{AreAllowed};
ghost use Rattle.lock_words.specs.Spent.{SpentStand};

use machine_states::structure_laws::Structure;

/// In every state that the machine reaches: where a runner keeps of a section that it left by a word behind which too
/// few versions were left, so it is: it is a lock's, free, and fewer than two are left behind it, or it is a cell's and
/// has the greatest version. That word stands at its place or one of a later version does, for good. So does each word
/// that a runner has read since it entered.
pub fn spent_words_stand<S: Structure>(structure: &S)
    ensures { (layout : Layout) (requests : List Request) (w : World) → IsWithinLimits layout → AreAllowed requests
        → Reached (S.meaning structure.now) layout requests w
        → SpentStand (S.meaning structure.now) layout (sight (S.meaning structure.now) layout requests w) }
{
    let _ = structure;
}
