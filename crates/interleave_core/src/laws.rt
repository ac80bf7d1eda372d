//! What is said of every event, and of every structure.
ghost use Rattle.std.specs.Prelude.{◌≡◌, ℕ, List, None};
ghost use Rattle.machine_states.specs.map_history.specs.declared.op.Request.{Request};
ghost use Rattle.machine_states.specs.table_words.specs.declared.layout.Layout.{Layout};
ghost use Rattle.machine_states.specs.table_words.specs.Limits.{IsWithinLimits};
ghost use Rattle.machine_states.specs.structure_laws.specs.Lawful.{Moves};
ghost use Rattle.machine_states.specs.runner_parts.specs.declared.event.Event.{Event};
ghost use Rattle.machine_states.specs.runner_parts.specs.declared.event.EventKind.TheVariants.{Join};
ghost use Rattle.interleave_core.specs.Local.{joined_by, IsLocal, JoinsTwo};

use machine_states::structure_laws::Structure;

/// Every event but a join reads and changes one word and the stepping runner's part alone. A join changes
/// no word, and of the parts only the keeper's and the worker's.
pub fn events_are_local<S: Structure>(structure: &S)
    ensures others { (layout : Layout) (requests : List Request) (e : Event) → joined_by e.kind ≡ None
        → IsLocal (S.meaning structure.now) layout requests e }
    ensures joins { (layout : Layout) (requests : List Request) (runner worker : ℕ)
        → JoinsTwo (S.meaning structure.now) layout requests (record { runner = runner; kind = Join worker }) worker }
{
    let _ = structure;
}

/// Over every structure each move leads from a lawful scene to a lawful scene, and the first scene is one.
pub fn moves_are_lawful<S: Structure>(structure: &S)
    ensures { (layout : Layout) → IsWithinLimits layout → Moves (S.meaning structure.now) layout }
{
    let _ = structure;
}
