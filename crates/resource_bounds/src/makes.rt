//! The law of this crate, on a contract.
ghost use Rattle.std.specs.Prelude.{ℕ, List};
ghost use Rattle.machine_states.specs.map_history.specs.declared.op.Request.{Request};
ghost use Rattle.machine_states.specs.table_words.specs.Limits.{IsWithinLimits};
ghost use Rattle.machine_states.specs.table_words.specs.declared.layout.Layout.{Layout};
ghost use Rattle.machine_states.specs.structure_laws.specs.Planner.{PlannerLaws};
ghost use Rattle.machine_states.specs.World.{World};
ghost use Rattle.machine_states.specs.Reached.{Reached};
ghost use Rattle.machine_states.specs.Sight.{sight};
ghost use Rattle.reached_histories.specs.machine_facts.specs.machine_invariant.specs.After.{AreAllowed};
ghost use Rattle.resource_bounds.specs.Makes.{MakesAreCounted, FewAreAdded};

use machine_states::structure_laws::Structure;

/// In every state that the machine reaches, over a structure that gives what planners need: where no lock is held and a
/// worker gave to the board only what it had above the number that the layout gives it, its free, looked at and worn
/// node slots, with two for each request that added a pair or replaced one, are at least as many; those that wait in
/// limbo come on top. For each Make that won used up one slot, a Retire that won adds to the limbo alone, sections that
/// left won none, and of each request one section at most has won any: one that is done and answered that it added a
/// pair or replaced one.
pub fn makes_are_counted<S: Structure>(structure: &S)
    ensures { (per_pair : ℕ) (layout : Layout) (requests : List Request) (w : World)
        → PlannerLaws (S.meaning structure.now) per_pair
        → IsWithinLimits layout → AreAllowed requests → Reached (S.meaning structure.now) layout requests w
        → MakesAreCounted (S.meaning structure.now) layout requests
        (sight (S.meaning structure.now) layout requests w) }
{
    let _ = structure;
}

/// In every state that the machine reaches, over a structure that serves a map, no more requests have a reply that says
/// that a pair was added, or put in the place of another, than may add one.
pub fn few_pairs_are_added<S: Structure>(structure: &S)
    ensures { (layout : Layout) (requests : List Request) (w : World) → IsWithinLimits layout → AreAllowed requests
        → Reached (S.meaning structure.now) layout requests w
        → FewAreAdded (S.meaning structure.now) requests (sight (S.meaning structure.now) layout requests w) }
{
    let _ = structure;
}
