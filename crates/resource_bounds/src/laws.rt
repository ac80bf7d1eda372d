//! The law of this crate, on a contract.
ghost use Rattle.std.specs.Prelude.{List};
ghost use Rattle.machine_states.specs.map_history.specs.declared.op.Request.{Request};
ghost use Rattle.machine_states.specs.table_words.specs.Limits.{IsWithinLimits};
ghost use Rattle.machine_states.specs.table_words.specs.declared.layout.Layout.{Layout};
ghost use Rattle.machine_states.specs.World.{World};
ghost use Rattle.machine_states.specs.Reached.{Reached};
ghost use Rattle.machine_states.specs.Sight.{sight};
ghost use Rattle.reached_histories.specs.machine_facts.specs.machine_invariant.specs.After.{AreAllowed};
ghost use Rattle.resource_bounds.specs.Versions.{VersionsAreCounted};

use machine_states::structure_laws::Structure;

/// In every state that the machine reaches, the version of each cell is at most 1 and four for each run of
/// each runner: those that came to their end, those in progress, and one for each published section that
/// its publisher hasn't run to its end. For a publication and its release raise a lock twice; so does a
/// Take of it, and no section takes its outer lock; a Store raises a cell once, and so does each of two
/// Makes at most that fill a slot.
pub fn versions_are_counted<S: Structure>(structure: &S)
    ensures { (layout : Layout) (requests : List Request) (w : World) → IsWithinLimits layout → AreAllowed requests
        → Reached (S.meaning structure.now) layout requests w
        → VersionsAreCounted layout (sight (S.meaning structure.now) layout requests w) }
{
    let _ = structure;
}
