//! Gates that never halt.
ghost use Rattle.std.specs.Prelude.{◌≡◌, ℕ, List, Option, None, true};
ghost use Rattle.runner_gate.specs.Asks.{Asks, unasked_by};
ghost use Rattle.runner_gate.specs.Counts.{none_counted};

use crate::counts::{Counts, GatePlan};
use crate::gate::{Gate, Pass};
use crate::gates::Gates;
use body_terms::StepKind;
use std::marker::Model;

/// A gate that never halts. It counts its asks, and its count of halts is 0 for good.
///
/// Contracts see for which runner it was given out, if it was, and how often it was asked.
#[derive(Debug, Drop)]
pub struct Free {
    plan: Option<GatePlan>,
    asks: u64,
}

impl Model for Free {
    ghost use Rattle.runner_gate.specs.Asks.{Asks};

    ghost Value = { Asks };

    ghost view = { λ gate. record { plan = gate.plan; count = gate.asks } };
}

impl Free {
    /// A gate that wasn't asked yet.
    pub fn new() -> Free
        ensures { result ≡ unasked_by None }
    {
        Free {
            plan: None,
            asks: 0,
        }
    }
}

impl Gate for Free {
    ghost halts = { λ _. 0 };

    ghost asks = { λ gate. gate };

    ghost free = { λ _. true };

    fn after(&mut self, _kind: StepKind) -> Pass {
        self.asks = self.asks.saturating_add(1);
        Pass::Go
    }

    #[inline(always)]
    fn is_free(&self) -> bool
        ensures { result ≡ true }
    {
        true
    }

    #[inline(always)]
    #[tactic(auto, using(body_terms::proofs::CountedLemmas::counts))]
    fn count(&mut self, more: u64) {
        self.asks = self.asks.saturating_add(more);
    }
}

/// Gives gates that never halt, whatever is planned. So its own count of halts is 0 for good.
#[derive(Debug, Drop)]
pub struct FreeGates {
    counts: Counts,
}

impl Model for FreeGates {
    ghost use Rattle.runner_gate.specs.Counts.{Counted};

    ghost Value = { Counted };

    ghost view = { λ gates. gates.counts };
}

impl FreeGates {
    /// No gate given yet.
    pub fn new() -> FreeGates
        ensures { result ≡ none_counted }
    {
        FreeGates {
            counts: Counts::new(),
        }
    }
}

impl Gates for FreeGates {
    type Gate = Free;

    ghost returned = { λ gates. gates.returned };

    ghost halts = { λ _. 0 };

    ghost asks = { λ gates. gates.asks };

    ghost plans = { λ gates. gates.plans };

    ghost planned = { λ gates. gates.planned };

    fn gate(&mut self, runner: u32, halt: Option<u64>) -> Free {
        self.counts.give(runner, halt);
        Free {
            plan: Some(GatePlan { runner, halt }),
            asks: 0,
        }
    }

    fn back(&mut self, gate: Free) {
        self.counts.take_back(0, gate.asks);
    }
}
