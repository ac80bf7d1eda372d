//! Gates that halt at an ask with a given number.
ghost use Rattle.std.specs.Prelude.{◌≡◌, ◌≤◌, ◌+◌, ℕ, List, Option, cond, true};
ghost use Rattle.std.specs.Option.{is_none};
ghost use Rattle.body_terms.specs.Counted.{counted_on};
ghost use Rattle.runner_gate.specs.declared.gate.Pass.TheVariants.{Go, Halt};
ghost use Rattle.runner_gate.specs.Asks.{unasked_of, asked_on, HaltedOnce};
ghost use Rattle.runner_gate.specs.Counts.{plus, halts_after, plans_after, planned_after, none_counted};
ghost use Rattle.runner_gate.specs.Planned.{asks_of, unasked, given_out, halts_next, asked};

use crate::counts::{Counts, GatePlan};
use crate::gate::{Gate, Pass};
use crate::gates::Gates;
use body_terms::StepKind;
use std::marker::Model;

/// A gate that halts at its ask with a given number, counted from 1, and at each later one; or never, where no
/// number is given.
///
/// Contracts see the number, for which runner it was given out, if it was, how often it was asked, and how often it
/// halted.
#[derive(Debug, Drop)]
pub struct HaltAt {
    at: Option<u64>,
    plan: Option<GatePlan>,
    asks: u64,
    halts: u64,
}

impl Model for HaltAt {
    ghost use Rattle.runner_gate.specs.Planned.{Planned};

    ghost Value = { Planned };

    ghost view = { λ gate. record { at = gate.at; plan = gate.plan; asks = gate.asks; halts = gate.halts } };
}

impl HaltAt {
    /// A gate that wasn't asked yet, and halts at its ask with this number and at each later one.
    pub fn new(at: Option<u64>) -> HaltAt
        ensures { result ≡ unasked at }
    {
        HaltAt {
            at,
            plan: None,
            asks: 0,
            halts: 0,
        }
    }
}

impl Gate for HaltAt {
    ghost halts = { λ gate. gate.halts };

    ghost asks = { λ gate. asks_of gate };

    ghost free = { λ gate. is_none gate.at };

    fn after(&mut self, _kind: StepKind) -> Pass
        ensures never_falls { self.old.halts ≤ self.new.halts }
        ensures halted { result ≡ Halt → HaltedOnce self.old.halts self.new.halts }
        ensures went { result ≡ Go → self.new.halts ≡ self.old.halts }
        ensures asked { asks_of self.new ≡ asked_on (asks_of self.old) 1 }
        ensures free { is_none self.old.at ≡ true → (result ≡ Go) × (is_none self.new.at ≡ true) }

        // It halts exactly where the number of its plan has come.
        ensures planned { result ≡ cond (halts_next self.old) Halt Go }
        ensures after { self.new ≡ asked self.old }
    {
        self.asks = self.asks.saturating_add(1);
        match self.at {
            Some(at) if at <= self.asks => {
                self.halts = self.halts.saturating_add(1);
                Pass::Halt
            }
            _ => Pass::Go,
        }
    }

    #[inline(always)]
    fn is_free(&self) -> bool
        ensures { result ≡ is_none self.now.at }
    {
        self.at.is_none()
    }

    #[inline(always)]
    #[tactic(auto, using(body_terms::proofs::CountedLemmas::counts))]
    fn count(&mut self, more: u64)
        ensures { self.new ≡ record self.old { asks = counted_on self.old.asks more } }
    {
        self.asks = self.asks.saturating_add(more);
    }
}

/// Gives each runner a gate that halts where it is planned.
#[derive(Debug, Drop)]
pub struct PlannedGates {
    counts: Counts,
}

impl Model for PlannedGates {
    ghost use Rattle.runner_gate.specs.Counts.{Counted};

    ghost Value = { Counted };

    ghost view = { λ gates. gates.counts };
}

impl PlannedGates {
    /// No gate given yet.
    pub fn new() -> PlannedGates
        ensures { result ≡ none_counted }
    {
        PlannedGates {
            counts: Counts::new(),
        }
    }
}

impl Gates for PlannedGates {
    type Gate = HaltAt;

    ghost returned = { λ gates. gates.returned };

    ghost halts = { λ gates. gates.halts };

    ghost asks = { λ gates. gates.asks };

    ghost plans = { λ gates. gates.plans };

    ghost planned = { λ gates. gates.planned };

    fn gate(&mut self, runner: u32, halt: Option<u64>) -> HaltAt
        ensures unasked { (result.halts ≡ 0) × (asks_of result ≡ unasked_of runner halt) }
        ensures returned { self.new.returned ≡ self.old.returned }
        ensures halts { self.new.halts ≡ self.old.halts }
        ensures asks { self.new.asks ≡ self.old.asks }
        ensures plans { self.new.plans ≡ plans_after self.old.plans halt }
        ensures planned { self.new.planned ≡ planned_after self.old.planned runner halt }

        // It halts as `halt` says.
        ensures gate { result ≡ given_out runner halt }
    {
        self.counts.give(runner, halt);
        HaltAt {
            at: halt,
            plan: Some(GatePlan { runner, halt }),
            asks: 0,
            halts: 0,
        }
    }

    fn back(&mut self, gate: HaltAt) {
        self.counts.take_back(gate.halts, gate.asks);
    }
}
