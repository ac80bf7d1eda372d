//! Gates that follow a script, and stop at a planned ask.
ghost use Rattle.threaded_runs.specs.runner_gate.specs.Planned.{asks_of};

use body_terms::StepKind;
use std::alloc::{AllocError, Global};
use threaded_runs::runner_gate::{
    Gate, Gates, HaltAt, Pass, Pause, PlannedGates, Scripted, ScriptedGates,
};

/// A gate that waits as its script says, and halts at its ask with the planned number and at each later one. Where it
/// has waited in vain it goes on.
#[derive(Debug, Drop)]
pub struct Stopping {
    script: Scripted,
    stop: HaltAt,
}

impl Gate for Stopping {
    ghost halts = { λ gate. gate.stop.halts };

    ghost asks = { λ gate. asks_of gate.stop };

    fn after(&mut self, kind: StepKind) -> Pass {
        let _waited = self.script.after(kind);
        self.stop.after(kind)
    }
}

/// Gives such gates, which share one script.
#[derive(Debug, Drop)]
pub struct StoppingGates {
    script: ScriptedGates,
    stops: PlannedGates,
}

impl StoppingGates {
    /// Gates of this script, none given yet. The Err is want of memory for the list of flags.
    pub fn new(alloc: Global, pauses: Vec<Pause>) -> Result<StoppingGates, AllocError> {
        Ok(StoppingGates {
            script: ScriptedGates::new(alloc, pauses)?,
            stops: PlannedGates::new(),
        })
    }
}

impl Gates for StoppingGates {
    type Gate = Stopping;

    ghost returned = { λ gates. gates.stops.returned };

    ghost halts = { λ gates. gates.stops.halts };

    ghost asks = { λ gates. gates.stops.asks };

    ghost plans = { λ gates. gates.stops.plans };

    ghost planned = { λ gates. gates.stops.planned };

    fn gate(&mut self, runner: u32, halt: Option<u64>) -> Stopping {
        Stopping {
            script: self.script.gate(runner, None),
            stop: self.stops.gate(runner, halt),
        }
    }

    fn back(&mut self, gate: Stopping) {
        self.stops.back(gate.stop);
    }
}
