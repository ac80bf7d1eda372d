//! Steps and asks that are counted apart, and told in the end.
ghost use Rattle.std.specs.Prelude.{◌≡◌, ℕ, Bool, true};
ghost use Rattle.runner_gate.specs.Asks.{Asks};
ghost use Rattle.commit_log.specs.Asked.{uncounted, IsAsked};

use machine_states::body_terms::{StepKind, Steps};
use runner_gate::{Gate, Pass};

/// What a runner asks in place of a gate that never halts: it lets the runner go on. It counts nothing, as if its count
/// stood at the last number of 64 bits.
#[derive(Debug, Drop)]
pub struct Unasked;

impl Gate for Unasked {
    ghost halts = { λ _. 0 };

    ghost asks = { λ _. uncounted };

    #[inline(always)]
    fn after(&mut self, _kind: StepKind) -> Pass {
        Pass::Go
    }
}

/// Tells a gate that never halts, and the count of steps, of so many steps that were counted apart, with `Unasked` for
/// the gate: then both stand as if the gate had been asked after each.
#[inline(always)]
pub fn tell<G: Gate, L>(gate: &mut G, steps: &mut Steps<L>, made: &Steps<L>)
    requires free { G.free gate.old ≡ true }
    ensures told { (n : ℕ) (going : Bool) (asks asks' : Asks) → IsAsked n going 0 0 asks asks' 0 made.now.count
        → IsAsked n going
        (G.halts gate.old) (G.halts gate.new) (G.asks gate.old) (G.asks gate.new) steps.old.count steps.new.count }
{
    gate.count(made.count);
    steps.count = steps.count.saturating_add(made.count);
}
