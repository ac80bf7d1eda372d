//! A gate that stops its worker for good between the two stores of a transfer.
ghost use Rattle.std.specs.Prelude.{◌≡◌, None};

use runner_steps::body_terms::StepKind;
use settled_tables::settling::runner_gate::{Gate, Pass};

/// A gate that halts behind the first store of its worker's own section with a given number, counted from 0; never,
/// where there is no number.
#[derive(Debug, Drop)]
pub struct StopInside {
    left: Option<u32>,
    own: bool,
    asks: u64,
    halts: u64,
}

impl StopInside {
    /// A gate that lets so many own transfers pass, and halts in the one behind them.
    pub fn new(left: Option<u32>) -> StopInside {
        StopInside {
            left,
            own: false,
            asks: 0,
            halts: 0,
        }
    }

    /// Whether it halts behind a step of this kind. An own section runs from its publication to its done word; its
    /// first store is the first one of these.
    fn is_last(&mut self, kind: StepKind) -> bool
        ensures asks { self.new.asks ≡ self.old.asks }
        ensures halts { self.new.halts ≡ self.old.halts }
    {
        match kind {
            StepKind::Hold => {
                self.own = true;
                false
            }
            StepKind::SetDone => {
                self.own = false;
                false
            }
            StepKind::CellExchange if self.own => {
                self.own = false;
                let last = self.left == Some(0);
                self.left = self.left.map(|left| left.saturating_sub(1));
                last
            }
            _ => false,
        }
    }
}

impl Gate for StopInside {
    ghost halts = { λ gate. gate.halts };

    ghost asks = { λ gate. record { plan = None; count = gate.asks } };

    fn after(&mut self, kind: StepKind) -> Pass {
        self.asks = self.asks.saturating_add(1);
        if self.is_last(kind) {
            self.halts = self.halts.saturating_add(1);
            Pass::Halt
        } else {
            Pass::Go
        }
    }
}
