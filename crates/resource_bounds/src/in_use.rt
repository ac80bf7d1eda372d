//! The law of this crate, on a contract.
ghost use Rattle.std.specs.Prelude.{ℕ, List};
ghost use Rattle.machine_states.specs.map_history.specs.declared.op.Request.{Request};
ghost use Rattle.machine_states.specs.table_words.specs.Limits.{IsWithinLimits};
ghost use Rattle.machine_states.specs.table_words.specs.declared.layout.Layout.{Layout};
ghost use Rattle.machine_states.specs.structure_laws.specs.Planner.{PlannerLaws};
ghost use Rattle.machine_states.specs.World.{World};
ghost use Rattle.machine_states.specs.Reached.{Reached};
ghost use Rattle.machine_states.specs.Sight.{sight};
ghost use Rattle.reached_histories.specs.machine_facts.specs.machine_invariant.specs.After.{AreAllowed};
ghost use Rattle.resource_bounds.specs.InUse.{FewAreInUse};

use machine_states::structure_laws::Structure;

/// In every state that the machine reaches, over a structure that gives what planners need: where no lock is held, the
/// workers' node slots and the keeper's are all free, looked at, waiting or worn with some runner, or on the board, but
/// for `per_pair` at most for each pair of the map to which the history leads. For each of them is live, in a list or
/// on the board, and by the structure's law few are live.
pub fn few_slots_are_in_use<S: Structure>(structure: &S)
    ensures { (per_pair : ℕ) (layout : Layout) (requests : List Request) (w : World)
        → PlannerLaws (S.meaning structure.now) per_pair
        → IsWithinLimits layout → AreAllowed requests → Reached (S.meaning structure.now) layout requests w
        → FewAreInUse per_pair (S.meaning structure.now) layout requests
        (sight (S.meaning structure.now) layout requests w) }
{
    let _ = structure;
}
