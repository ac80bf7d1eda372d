//! The law of this crate, on a contract.
ghost use Rattle.std.specs.Prelude.{List};
ghost use Rattle.machine_states.specs.map_history.specs.declared.op.Request.{Request};
ghost use Rattle.machine_states.specs.table_words.specs.Limits.{IsWithinLimits};
ghost use Rattle.machine_states.specs.table_words.specs.declared.layout.Layout.{Layout};
ghost use Rattle.machine_states.specs.World.{World};
ghost use Rattle.machine_states.specs.Reached.{Reached};
ghost use Rattle.machine_states.specs.Sight.{sight};
ghost use Rattle.runner_facts.specs.machine_facts.specs.machine_invariant.specs.After.{AreAllowed};
ghost use Rattle.keeper_facts.specs.Freed.{LocksTell};

use machine_states::structure_laws::Structure;
use runner_facts::{joined_workers_are_gone, what_the_keeper_left_stands};

/// In every state that the machine reaches, once the keeper has joined all workers: take a section that a lock named
/// which the keeper saw with another word too, before or after that. While the keeper is in no run, no lock names that
/// section any more. A lock that the keeper saw free, or with two words, names no section then. There are at most as
/// many such sections as workers, and each cell that the keeper's record has holds a number that the record has for it.
pub fn what_the_keeper_saw_tells<S: Structure>(structure: &S)
    ensures { (layout : Layout) (requests : List Request) (w : World) → IsWithinLimits layout → AreAllowed requests
        → Reached (S.meaning structure.now) layout requests w
        → LocksTell (S.meaning structure.now) layout (sight (S.meaning structure.now) layout requests w) }
{
    joined_workers_are_gone(structure);
    what_the_keeper_left_stands(structure);
}
