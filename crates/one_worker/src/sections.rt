//! The law of this crate, on a contract.
ghost use Rattle.std.specs.Prelude.{ℕ, List};
ghost use Rattle.machine_states.specs.map_history.specs.declared.op.Request.{Request};
ghost use Rattle.machine_states.specs.table_words.specs.Limits.{IsWithinLimits};
ghost use Rattle.machine_states.specs.table_words.specs.declared.layout.Layout.{Layout};
ghost use Rattle.machine_states.specs.structure_laws.specs.Planner.{PlannerLaws};
ghost use Rattle.machine_states.specs.World.{World};
ghost use Rattle.machine_states.specs.Reached.{Reached};
ghost use Rattle.machine_states.specs.Sight.{sight};
ghost use Rattle.runner_facts.specs.machine_facts.specs.machine_invariant.specs.After.{AreAllowed};
ghost use Rattle.one_worker.specs.Lone.{LoneSectionsGoThrough};

use machine_states::structure_laws::Structure;

/// In every state that the machine reaches with one worker, over a structure that gives what planners need: take the
/// first section that the worker has published since it entered, as long as it hasn't run it to its end. A run of it
/// that ends where it stands ends with the section's answer, or by a word behind which too few versions are left. For
/// what the section wants and expects was read in the worker's walk, and nobody changes it but the section itself.
pub fn lone_sections_go_through<S: Structure>(structure: &S)
    ensures { (per_pair : ℕ) (layout : Layout) (requests : List Request) (w : World)
        → PlannerLaws (S.meaning structure.now) per_pair
        → IsWithinLimits layout → AreAllowed requests → Reached (S.meaning structure.now) layout requests w
        → LoneSectionsGoThrough (S.meaning structure.now) layout (sight (S.meaning structure.now) layout requests w) }
{
    let _ = structure;
}
