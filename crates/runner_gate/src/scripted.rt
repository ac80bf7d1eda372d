//! Gates that follow a script, for tests: at an ask a gate waits until another gate was asked.
ghost use Rattle.std.specs.Prelude.{◌≡◌, ◌<◌, ℕ, List, Option, Some, IfOk};
ghost use Rattle.runner_gate.specs.Asks.{Asks};
ghost use Rattle.runner_gate.specs.Counts.{none_counted};

use crate::counts::{Counts, GatePlan};
use crate::gate::{Gate, Pass};
use crate::gates::Gates;
use body_terms::StepKind;
use std::alloc::{AllocError, Global};
use std::marker::Model;
use std::sync::Arc;
use std::sync::atomic::{AtomicBool, Ordering};
use std::thread::yield_now;

/// How often a flag is loaded at most while a gate waits for it, where nothing else is said.
const MAX_LOADS: u32 = 1_000_000_000;

/// After how many loads the thread is yielded.
const LOADS_A_TURN: u32 = 4096;

/// How many kinds of step there are.
const KINDS: usize = 23;

/// One line of a script: the gate of `runner`, at its first ask with `at`, waits until the gate of
/// `until_runner` was asked with `until`.
#[derive(Clone, Copy, Debug, PartialEq, Eq)]
pub struct Pause {
    /// The runner that waits.
    pub runner: u32,
    /// Where it waits.
    pub at: StepKind,
    /// The runner that it waits for.
    pub until_runner: u32,
    /// Where that one has to come.
    pub until: StepKind,
}

/// A line with its flag, which is raised once the ask that it waits for has come, and how often the flag is loaded at
/// most.
#[derive(Debug, Drop)]
struct Line {
    pause: Pause,
    has_come: AtomicBool,
    max_loads: u32,
}

impl Line {
    /// Raises the flag where this ask is the one that the line waits for.
    fn hear(&self, runner: u32, kind: StepKind) {
        if self.pause.until_runner == runner && self.pause.until == kind {
            self.has_come.store(true, Ordering::SeqCst);
        }
    }

    /// Waits where the line says that this ask waits. False where the limit on loads was reached.
    fn wait(&self, runner: u32, kind: StepKind) -> bool {
        self.pause.runner != runner
            || self.pause.at != kind
            || is_raised(&self.has_come, self.max_loads)
    }
}

/// Waits until the flag is raised. False where the limit on loads was reached.
fn is_raised(flag: &AtomicBool, max_loads: u32) -> bool {
    for loads in 0..max_loads {
        if flag.load(Ordering::SeqCst) {
            return true;
        }
        if loads % LOADS_A_TURN == 0 {
            yield_now();
        }
    }
    false
}

/// Whether this is the first ask of its kind. From then on it isn't.
fn is_first(was_asked: &mut [bool; KINDS], kind: StepKind) -> bool {
    let place = kind as usize;
    let is_first = !was_asked[place];
    was_asked[place] = true;
    is_first
}

/// A gate of a script. It halts where it has waited for the limit on loads.
#[derive(Debug, Drop)]
pub struct Scripted {
    plan: GatePlan,
    // None where no more gates can share the script. Such a gate halts at each ask.
    script: Option<Arc<Vec<Line>, Global>>,
    was_asked: [bool; KINDS],
    asks: u64,
    halts: u64,
}

impl Scripted {
    /// Raises the flags that this ask answers, and then waits as the script says. False where a limit was reached.
    fn follow(&self, kind: StepKind, is_first: bool) -> bool {
        let Some(script) = &self.script else {
            return false;
        };
        for line in script.as_slice() {
            line.hear(self.plan.runner, kind);
        }
        !is_first || script.iter().all(|line| line.wait(self.plan.runner, kind))
    }
}

impl Gate for Scripted {
    ghost halts = { λ gate. gate.halts };

    ghost asks = { λ gate. record { plan = Some gate.plan; count = gate.asks } };

    fn after(&mut self, kind: StepKind) -> Pass {
        self.asks = self.asks.saturating_add(1);
        let is_first = is_first(&mut self.was_asked, kind);
        if self.follow(kind, is_first) {
            return Pass::Go;
        }
        self.halts = self.halts.saturating_add(1);
        Pass::Halt
    }
}

/// Gives gates that follow one script, whatever is planned. They share one list of flags.
#[derive(Debug, Drop)]
pub struct ScriptedGates {
    script: Arc<Vec<Line>, Global>,
    counts: Counts,
}

impl Model for ScriptedGates {
    ghost use Rattle.runner_gate.specs.Counts.{Counted};

    ghost Value = { Counted };

    ghost view = { λ gates. gates.counts };
}

impl ScriptedGates {
    /// Gates of this script, none given yet, which wait for 1,000,000,000 loads at most. The Err is want of memory for
    /// the list of flags.
    pub fn new(alloc: Global, pauses: Vec<Pause>) -> Result<ScriptedGates, AllocError>
        ensures { IfOk result (λ gates. gates ≡ none_counted) }
    {
        ScriptedGates::with_limit(alloc, pauses, MAX_LOADS)
    }

    /// The same, with gates that wait for so many loads at most.
    pub fn with_limit(
        alloc: Global,
        pauses: Vec<Pause>,
        max_loads: u32,
    ) -> Result<ScriptedGates, AllocError>
        ensures { IfOk result (λ gates. gates ≡ none_counted) }
    {
        let mut lines = Vec::with_capacity(alloc, pauses.len())?;
        for pause in pauses {
            lines.push(Line {
                pause,
                has_come: AtomicBool::new(false),
                max_loads,
            })?;
        }
        Ok(ScriptedGates {
            script: Arc::new(alloc, lines)?,
            counts: Counts::new(),
        })
    }
}

impl Gates for ScriptedGates {
    type Gate = Scripted;

    ghost returned = { λ gates. gates.returned };

    ghost halts = { λ gates. gates.halts };

    ghost asks = { λ gates. gates.asks };

    ghost plans = { λ gates. gates.plans };

    ghost planned = { λ gates. gates.planned };

    fn gate(&mut self, runner: u32, halt: Option<u64>) -> Scripted {
        self.counts.give(runner, halt);
        Scripted {
            plan: GatePlan { runner, halt },
            script: Arc::try_clone(&self.script).ok(),
            was_asked: [false; KINDS],
            asks: 0,
            halts: 0,
        }
    }

    fn back(&mut self, gate: Scripted) {
        self.counts.take_back(gate.halts, gate.asks);
    }
}
