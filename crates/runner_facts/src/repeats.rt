//! The law of this crate, on a contract.
ghost use Rattle.std.specs.Prelude.{List};
ghost use Rattle.machine_states.specs.map_history.specs.declared.op.Request.{Request};
ghost use Rattle.machine_states.specs.table_words.specs.Limits.{IsWithinLimits};
ghost use Rattle.machine_states.specs.table_words.specs.declared.layout.Layout.{Layout};
ghost use Rattle.machine_states.specs.World.{World};
ghost use Rattle.machine_states.specs.Reached.{Reached};
ghost use Rattle.machine_states.specs.Sight.{sight};
ghost use Rattle.machine_facts.specs.machine_invariant.specs.After.{AreAllowed};
ghost use Rattle.runner_facts.specs.Worn.{HasNoRepeats};

use machine_states::structure_laws::Structure;

/// In every state that the machine reaches, no slot stands twice in a runner's worn list. So the list's length is the
/// number of its slots, of which each has a cell with the greatest version (`worn_slots_are_worn` of `runner_facts`).
pub fn worn_lists_have_no_repeats<S: Structure>(structure: &S)
    ensures { (layout : Layout) (requests : List Request) (w : World) → IsWithinLimits layout → AreAllowed requests
        → Reached (S.meaning structure.now) layout requests w
        → HasNoRepeats (sight (S.meaning structure.now) layout requests w) }
{
    let _ = structure;
}
