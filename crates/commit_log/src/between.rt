//! What comes between two steps of a run.
ghost use Rattle.std.specs.Prelude.{◌≡◌, ℕ};
ghost use Rattle.commit_log.specs.Asked.{IsAsked};

use machine_states::body_terms::{StepKind, Steps};
use runner_gate::{Gate, Pass};

/// Counts one more step, and asks the gate whether the runner goes on behind it.
pub fn passes<G: Gate, L>(gate: &mut G, steps: &mut Steps<L>, kind: StepKind) -> bool
    ensures { IsAsked 1 result
        (G.halts gate.old) (G.halts gate.new) (G.asks gate.old) (G.asks gate.new) steps.old.count steps.new.count }
{
    steps.tick();
    gate.after(kind) == Pass::Go
}
