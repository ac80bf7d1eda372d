//! The end of a run: its section is done, and its locks are released.
ghost use Rattle.std.specs.Prelude.{◌≡◌, ℕ, ◌+◌, ◌≤◌, ◌<◌, cond, true, false, length, take, count_by};
ghost use Rattle.idem_cell.specs.machine_states.specs.body_terms.specs.Shape.{IsStep, is_take};
ghost use Rattle.idem_cell.specs.machine_states.specs.body_terms.specs.declared.outcome.Outcome.{Outcome};
ghost use Rattle.idem_cell.specs.machine_states.specs.runner_steps.specs.Sections.{thunk_of};
ghost use Rattle.idem_alloc.specs.commit_log.specs.version_words.specs.TableState.{IsOf};
ghost use Rattle.idem_alloc.specs.commit_log.specs.Asked.{IsAsked};
ghost use Rattle.idem_alloc.specs.commit_log.specs.Halted.{IsThrough, IsHalted};
ghost use Rattle.section_runs.specs.Reached.{run_of};
ghost use Rattle.section_runs.specs.Bodies.{body_of, IsOver};
ghost use Rattle.section_runs.specs.Ends.{IsEnding, EndsOn, HasReleased, EndsAsked};

use idem_alloc::commit_log::passes;
use idem_alloc::commit_log::version_words::{FlockTable, Runner};
use idem_cell::body_terms::{Place, Step, StepKind, Steps, Word};
use idem_cell::runner_gate::Gate;
use idem_cell::section_lines::structure_laws::Structure;

/// Sets the done word.
fn finish<S: Structure, G: Gate, L>(
    table: &FlockTable<S>,
    runner: Runner<S>,
    taken: usize,
    gate: &mut G,
    steps: &mut Steps<L>,
) -> (Runner<S>, bool)
    requires own { IsOf table.now runner }
    requires over { (o : Outcome) × IsOver (S.meaning table.now.structure) taken o runner }
    ensures own { IsOf table.now result.0 }
    ensures ending { result.1 ≡ true → IsEnding (S.meaning table.now.structure) taken 0 result.0 }
    ensures same { result.1 ≡ true → EndsOn (S.meaning table.now.structure) runner result.0 }
    ensures through { result.1 ≡ true → IsThrough (S.meaning table.now.structure) 1 runner result.0
        (G.halts gate.old) (G.halts gate.new) (G.asks gate.old) (G.asks gate.new) steps.old.count steps.new.count }
    ensures halted { result.1 ≡ false → IsHalted (S.meaning table.now.structure) 1 runner result.0
        (G.halts gate.old) (G.halts gate.new) (G.asks gate.old) (G.asks gate.new) steps.old.count steps.new.count }
{
    let _ = taken;
    let runner = table.set_done(runner);
    let going = passes(gate, steps, StepKind::SetDone);
    (runner, going)
}

/// Releases the lock of step `n`, if it is a Take.
fn release_step<S: Structure, G: Gate, L>(
    table: &FlockTable<S>,
    runner: Runner<S>,
    taken: usize,
    n: usize,
    step: &Step,
    gate: &mut G,
    steps: &mut Steps<L>,
) -> (Runner<S>, bool)
    requires own { IsOf table.now runner }
    requires below { n < taken }
    requires here { IsStep (body_of (S.meaning table.now.structure) runner) n step.now }
    requires next { IsEnding (S.meaning table.now.structure) taken n runner }
    ensures own { IsOf table.now result.0 }
    ensures ending { result.1 ≡ true → IsEnding (S.meaning table.now.structure) taken (n + 1) result.0 }
    ensures same { result.1 ≡ true → EndsOn (S.meaning table.now.structure) runner result.0 }
    ensures through { result.1 ≡ true
        → IsThrough (S.meaning table.now.structure) (cond (is_take step.now) 1 0) runner result.0
        (G.halts gate.old) (G.halts gate.new) (G.asks gate.old) (G.asks gate.new) steps.old.count steps.new.count }
    ensures halted { result.1 ≡ false
        → IsHalted (S.meaning table.now.structure) (cond (is_take step.now) 1 0) runner result.0
        (G.halts gate.old) (G.halts gate.new) (G.asks gate.old) (G.asks gate.new) steps.old.count steps.new.count }
{
    let _ = taken;
    let _ = n;
    match *step {
        Step::Take { place, word } => {
            let runner = table.release(runner, place, word);
            let going = passes(gate, steps, StepKind::Release);
            (runner, going)
        }
        _ => (runner, true),
    }
}

/// Releases the locks of the Takes among the first steps, so many, in their order.
fn release_all<S: Structure, G: Gate, L>(
    table: &FlockTable<S>,
    runner: Runner<S>,
    body: &[Step],
    taken: usize,
    gate: &mut G,
    steps: &mut Steps<L>,
) -> (Runner<S>, bool)
    requires own { IsOf table.now runner }
    requires body { body.now ≡ body_of (S.meaning table.now.structure) runner }
    requires within { taken ≤ length body.now }
    requires next { IsEnding (S.meaning table.now.structure) taken 0 runner }
    ensures own { IsOf table.now result.0 }
    ensures ending { result.1 ≡ true → IsEnding (S.meaning table.now.structure) taken taken result.0 }
    ensures same { result.1 ≡ true → EndsOn (S.meaning table.now.structure) runner result.0 }
    ensures through { result.1 ≡ true
        → IsThrough (S.meaning table.now.structure) (count_by is_take body.now) runner result.0
        (G.halts gate.old) (G.halts gate.new) (G.asks gate.old) (G.asks gate.new) steps.old.count steps.new.count }
    ensures halted { result.1 ≡ false
        → IsHalted (S.meaning table.now.structure) (count_by is_take body.now) runner result.0
        (G.halts gate.old) (G.halts gate.new) (G.asks gate.old) (G.asks gate.new) steps.old.count steps.new.count }
{
    let mut runner = runner;
    for n in 0..taken {
        let (released, going) = release_step(table, runner, taken, n, &body[n], gate, steps);
        runner = released;
        if !going {
            return (runner, false);
        }
    }
    (runner, true)
}

/// Releases the outer lock, with which the run is over.
fn release_last<S: Structure, G: Gate, L>(
    table: &FlockTable<S>,
    runner: Runner<S>,
    taken: usize,
    lock: Place,
    word: Word,
    gate: &mut G,
    steps: &mut Steps<L>,
) -> (Runner<S>, bool)
    requires own { IsOf table.now runner }
    requires lock { lock ≡ (thunk_of (run_of runner).opened).lock }
    requires word { word ≡ (thunk_of (run_of runner).opened).word }
    requires next { IsEnding (S.meaning table.now.structure) taken taken runner }
    ensures own { IsOf table.now result.0 }
    ensures released { HasReleased (S.meaning table.now.structure) runner result.0 }
    ensures asked { IsAsked 1 result.1
        (G.halts gate.old) (G.halts gate.new) (G.asks gate.old) (G.asks gate.new) steps.old.count steps.new.count }
{
    let _ = taken;
    let runner = table.release(runner, lock, word);
    let going = passes(gate, steps, StepKind::Release);
    (runner, going)
}

/// Ends the run: sets the done word, and releases each lock that the section took before this step of its body, and the
/// outer one last. Each step is counted, and the gate is asked after it: whether it let the runner go on.
#[inline(always)]
pub fn end<S: Structure, G: Gate, L>(
    table: &FlockTable<S>,
    runner: Runner<S>,
    body: &[Step],
    taken: usize,
    lock: Place,
    word: Word,
    gate: &mut G,
    steps: &mut Steps<L>,
) -> (Runner<S>, bool)
    requires own { IsOf table.now runner }
    requires body { body.now ≡ body_of (S.meaning table.now.structure) runner }
    requires within { taken ≤ length body.now }
    requires lock { lock ≡ (thunk_of (run_of runner).opened).lock }
    requires word { word ≡ (thunk_of (run_of runner).opened).word }
    requires over { (o : Outcome) × IsOver (S.meaning table.now.structure) taken o runner }
    ensures own { IsOf table.now result.0 }
    ensures ended { result.1 ≡ true
        → EndsAsked (S.meaning table.now.structure) (count_by is_take body.now) runner result.0
        (G.halts gate.old) (G.halts gate.new) (G.asks gate.old) (G.asks gate.new) steps.old.count steps.new.count }
    ensures halted { result.1 ≡ false
        → IsHalted (S.meaning table.now.structure) (2 + count_by is_take body.now) runner result.0
        (G.halts gate.old) (G.halts gate.new) (G.asks gate.old) (G.asks gate.new) steps.old.count steps.new.count }
{
    let (runner, going) = finish(table, runner, taken, gate, steps);
    if !going {
        return (runner, false);
    }
    let (runner, going) = release_all(table, runner, body, taken, gate, steps);
    if !going {
        return (runner, false);
    }
    release_last(table, runner, taken, lock, word, gate, steps)
}
