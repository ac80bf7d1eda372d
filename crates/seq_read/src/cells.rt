//! The loads of the cells that a body loads.
ghost use Rattle.std.specs.Prelude.{List};
ghost use Rattle.machine_states.specs.map_history.specs.declared.op.Request.{Request};
ghost use Rattle.machine_states.specs.body_terms.specs.declared.thunk.Thunk.{Thunk};
ghost use Rattle.machine_states.specs.structure_laws.specs.Scene.{Readings};
ghost use Rattle.caller_facts.specs.version_words.specs.RunnerState.{RunnerState};
ghost use Rattle.caller_facts.specs.version_words.specs.TableState.{IsOf};
ghost use Rattle.caller_facts.specs.try_lock.specs.Planning.{Planning};
ghost use Rattle.caller_facts.specs.lock_walks.specs.Glances.{glanced};
ghost use Rattle.caller_facts.specs.Counted.{IsSeen};
ghost use Rattle.seq_read.specs.declared.cells.Loaded.{Loaded as Cell};
ghost use Rattle.seq_read.specs.View.{steps_in};
ghost use Rattle.seq_read.specs.Wants.{IsTested};
ghost use Rattle.seq_read.specs.Parts.{MayLoad, HasLoadedCells};

use crate::view::BodyView;
use crate::wants::{Missed, missed_behind, missed_with};
use caller_facts::lock_walks::Glance;
use caller_facts::lock_walks::version_words::{FlockTable, Runner};
use caller_facts::runner_gate::Gate;
use caller_facts::try_lock::commit_log::passes;
use machine_states::body_terms::{Place, Step, StepKind, Steps};
use machine_states::structure_laws::Structure;

/// A cell that was loaded: its place, the register into which the body loads it, and the word that was found.
#[derive(Clone, Copy, Debug, Default, PartialEq, Eq)]
pub struct Loaded {
    pub place: Place,
    pub into: u8,
    pub word: u64,
}

/// As `load_cells`, of these steps. Each cell is tested as it is loaded, and none is kept, since to clear a place for
/// them took longer than all loads of a read.
#[inline(always)]
fn load_written<S: Structure, G: Gate, L>(
    table: &FlockTable<S>,
    runner: Runner<S>,
    body: &[Step],
    gate: &mut G,
    steps: &mut Steps<L>,
) -> (Runner<S>, Option<Missed>, bool)
    requires own { IsOf table.now runner }
    requires may { (planning : Planning) × (request : Request) × (thunk : Thunk) × (readings : Readings)
        × (old : RunnerState S)
        × MayLoad (S.meaning table.now.structure) planning request body.now thunk readings old runner }
    ensures own { IsOf table.now result.0 }
    ensures loaded { (xs : List Cell) × IsTested body.now xs result.1
        × HasLoadedCells (S.meaning table.now.structure) body.now xs result.2 runner result.0
        (IsSeen G.halts G.asks)
        (G.halts gate.old) (G.halts gate.new) (G.asks gate.old) (G.asks gate.new) steps.old.count steps.new.count }
{
    let mut runner = runner;
    let mut missed = None;
    for n in 0..body.len() {
        let step = &body[n];
        if let Step::Load { place, into } = *step {
            let (at, found) = table.load_cell(runner, place);
            runner = at;
            let cell = Loaded {
                place,
                into,
                word: found.bits(),
            };
            missed = missed_with(missed, body, &cell);
            if !passes(gate, steps, StepKind::Walk) {
                return (runner, missed, false);
            }
        }
    }
    (runner, missed, true)
}

/// As `load_cells`, of a body that looks at one cell or two.
#[inline(always)]
fn load_glanced<S: Structure, G: Gate, L>(
    table: &FlockTable<S>,
    runner: Runner<S>,
    glance: &Glance,
    gate: &mut G,
    steps: &mut Steps<L>,
) -> (Runner<S>, Option<Missed>, bool)
    requires own { IsOf table.now runner }
    requires may { (planning : Planning) × (request : Request) × (thunk : Thunk) × (readings : Readings)
        × (old : RunnerState S)
        × MayLoad (S.meaning table.now.structure) planning request (glanced glance.now) thunk readings old runner }
    ensures own { IsOf table.now result.0 }
    ensures loaded { (xs : List Cell) × IsTested (glanced glance.now) xs result.1
        × HasLoadedCells (S.meaning table.now.structure) (glanced glance.now) xs result.2 runner result.0
        (IsSeen G.halts G.asks)
        (G.halts gate.old) (G.halts gate.new) (G.asks gate.old) (G.asks gate.new) steps.old.count steps.new.count }
{
    let (runner, found) = table.load_cell(runner, glance.first.place);
    let missed = missed_behind(None, &glance.first, found);
    if !passes(gate, steps, StepKind::Walk) {
        return (runner, missed, false);
    }
    let Some(second) = glance.second else {
        return (runner, missed, true);
    };
    let (runner, found) = table.load_cell(runner, second.place);
    let missed = missed_behind(missed, &second, found);
    let going = passes(gate, steps, StepKind::Walk);
    (runner, missed, going)
}

/// Loads the cells that the steps of a body load, in their order; the gate is asked behind each load. Answers what was
/// missed first, if anything was, and whether the gate let the runner go on.
///
/// The body is that of a thunk that was planned since the runner entered. No memory is taken.
#[inline(always)]
pub fn load_cells<S: Structure, G: Gate, L>(
    table: &FlockTable<S>,
    runner: Runner<S>,
    body: &BodyView,
    gate: &mut G,
    steps: &mut Steps<L>,
) -> (Runner<S>, Option<Missed>, bool)
    requires own { IsOf table.now runner }
    requires may { (planning : Planning) × (request : Request) × (thunk : Thunk) × (readings : Readings)
        × (old : RunnerState S)
        × MayLoad (S.meaning table.now.structure) planning request (steps_in body.now) thunk readings old runner }
    ensures own { IsOf table.now result.0 }
    ensures loaded { (xs : List Cell) × IsTested (steps_in body.now) xs result.1
        × HasLoadedCells (S.meaning table.now.structure) (steps_in body.now) xs result.2 runner result.0
        (IsSeen G.halts G.asks)
        (G.halts gate.old) (G.halts gate.new) (G.asks gate.old) (G.asks gate.new) steps.old.count steps.new.count }
{
    match body {
        BodyView::Written(line) => load_written(table, runner, line, gate, steps),
        BodyView::Glanced(glance) => load_glanced(table, runner, glance, gate, steps),
    }
}
