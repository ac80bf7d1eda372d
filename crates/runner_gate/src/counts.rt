//! What is counted of all gates that were given and came back.
ghost use Rattle.std.specs.Prelude.{◌≡◌};
ghost use Rattle.runner_gate.specs.Counts.{none_counted, given, taken_back, planned_after};

use arrayvec::ArrayVec;
use std::marker::Model;

/// A gate that was given: for which runner, and at which ask it is to halt, if at any.
#[derive(Clone, Copy, Debug, Default, PartialEq, Eq)]
pub struct GatePlan {
    pub runner: u32,
    pub halt: Option<u64>,
}

/// How many of the plans are kept.
const KEPT: usize = 16;

/// Puts a plan behind the others, where there is room for it.
fn keep(planned: &mut ArrayVec<GatePlan, KEPT>, plan: GatePlan)
    ensures { planned.new.items ≡ planned_after planned.old.items plan.runner plan.halt }
{
    if !planned.is_full() {
        planned.push(plan);
    }
}

/// The counts of `Gates`, each of which stands still at its last number.
#[derive(Debug, Drop)]
pub struct Counts {
    returned: u64,
    halts: u64,
    asks: u64,
    plans: u64,
    planned: ArrayVec<GatePlan, KEPT>,
}

impl Model for Counts {
    ghost use Rattle.runner_gate.specs.Counts.{Counted};

    ghost Value = { Counted };

    ghost view = { λ counts. record {
      returned = counts.returned;
      halts = counts.halts;
      asks = counts.asks;
      plans = counts.plans;
      planned = counts.planned.items;
    } };
}

impl Counts {
    /// Nothing counted.
    pub fn new() -> Counts
        ensures { result ≡ none_counted }
    {
        Counts {
            returned: 0,
            halts: 0,
            asks: 0,
            plans: 0,
            planned: ArrayVec::new(),
        }
    }

    /// A gate was given for this runner with this plan.
    pub fn give(&mut self, runner: u32, halt: Option<u64>)
        ensures { self.new ≡ given runner halt self.old }
    {
        if halt.is_some() {
            self.plans = self.plans.saturating_add(1);
        }
        keep(&mut self.planned, GatePlan { runner, halt });
    }

    /// A gate came back that has halted and was asked so often.
    pub fn take_back(&mut self, halts: u64, asks: u64)
        ensures { self.new ≡ taken_back halts asks self.old }
    {
        if halts > 0 {
            self.halts = self.halts.saturating_add(1);
        }
        self.asks = self.asks.saturating_add(asks);
        self.returned = self.returned.saturating_add(1);
    }
}
