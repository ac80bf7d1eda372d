//! The steps of a run's body, one after the other.
ghost use Rattle.std.specs.Prelude.{◌≡◌, ◌≢◌, ℕ, ◌+◌, ◌<◌, ◌≤◌, cond, length, count_by, sum_by};
ghost use Rattle.idem_cell.specs.machine_states.specs.body_terms.specs.Cost.{step_cost};
ghost use Rattle.idem_cell.specs.machine_states.specs.body_terms.specs.Shape.{IsShaped, is_make, is_take};
ghost use Rattle.idem_cell.specs.machine_states.specs.body_terms.specs.declared.outcome.Outcome.{Outcome as Ending};
ghost use Rattle.idem_cell.specs.machine_states.specs.runner_steps.specs.Sections.{reply_in};
ghost use Rattle.idem_alloc.specs.commit_log.specs.version_words.specs.TableState.{IsOf};
ghost use Rattle.idem_alloc.specs.commit_log.specs.Halted.{IsThrough, IsHalted};
ghost use Rattle.section_runs.specs.Reached.{run_of};
ghost use Rattle.section_runs.specs.Bodies.{body_of, body_links, IsBefore, HasWalked};
ghost use Rattle.section_runs.specs.declared.passed.Walked.TheVariants.{Over, Stopped};

use crate::passed::{Passed, Walked};
use crate::registers::Places;
use crate::steps::step_gated;
use crate::sums::add_up;
use idem_alloc::commit_log::version_words::{FlockTable, Runner};
use idem_cell::body_terms::{Outcome, Step, Steps, Trail};
use idem_cell::runner_gate::Gate;
use idem_cell::section_lines::structure_laws::Structure;

/// The reply of a body's Answer, which is its last step.
fn reply_of(body: &[Step]) -> u64
    requires { IsShaped body.now }
    ensures { result ≡ reply_in body.now }
{
    match body[body.len() - 1] {
        Step::Answer { reply } => reply,
        _ => unreachable!(),
    }
}

/// Among how many of the first steps the Takes are that were passed, once one more step was: this one, behind `n`
/// others.
fn taken_behind(taken: usize, n: usize, step: &Step) -> usize
    requires { n < u64.MAX }
    ensures { result ≡ cond (is_take step.now) (n + 1) taken }
{
    match step {
        Step::Take { place: _, word: _ } => n + 1,
        _ => taken,
    }
}

/// Makes the steps of the body one after the other, until it has gone through all or leaves at one. Each atomic step is
/// counted, and the gate is asked after it. Answers among how many of the first steps the Takes are that were passed,
/// so that the end looks at no others, and the outcome.
///
/// The steps are counted apart and added up at its end, wherever that is.
///
/// The run stands before the first step, a free node slot is there for each Make, and there are blocks for its log. No
/// memory is taken.
pub fn walk<S: Structure, G: Gate, L>(
    table: &FlockTable<S>,
    runner: Runner<S>,
    descriptor: u32,
    body: &[Step],
    trail: &mut Trail,
    gate: &mut G,
    steps: &mut Steps<L>,
) -> (Runner<S>, Walked)
    requires own { IsOf table.now runner }
    requires body { body.now ≡ body_of (S.meaning table.now.structure) runner }
    requires shaped { IsShaped body.now }
    requires before { IsBefore (S.meaning table.now.structure) 0 runner }
    requires section { descriptor ≡ (run_of runner).descriptor }
    requires trail { trail.old.words ≡ (run_of runner).trail }
    requires reserve { count_by is_make body.now ≤ length runner.part.nodes.free }
    ensures own { IsOf table.now result.0 }
    ensures over { (n : ℕ) (o : Ending) → result.1 ≡ Over n o
        → HasWalked (S.meaning table.now.structure) n o runner result.0 }
    ensures trail { result.1 ≢ Stopped → trail.new.words ≡ (run_of result.0).trail }
    ensures late { trail.new.late ≡ trail.old.late }
    ensures through { result.1 ≢ Stopped
        → IsThrough (S.meaning table.now.structure) (sum_by step_cost body.now + body_links body.now) runner result.0
        (G.halts gate.old) (G.halts gate.new) (G.asks gate.old) (G.asks gate.new) steps.old.count steps.new.count }
    ensures halted { result.1 ≡ Stopped
        → IsHalted (S.meaning table.now.structure) (sum_by step_cost body.now + body_links body.now) runner result.0
        (G.halts gate.old) (G.halts gate.new) (G.asks gate.old) (G.asks gate.new) steps.old.count steps.new.count }
{
    let mut runner = runner;
    let mut kept = Places::new();
    let mut made = Steps::<L>::new();
    let mut taken = 0;
    for n in 0..body.len() {
        let step = &body[n];
        let (gone, passed) = step_gated(
            table, runner, descriptor, n, step, &mut kept, trail, gate, &mut made,
        );
        runner = gone;
        match passed {
            Passed::On => taken = taken_behind(taken, n, step),
            Passed::Left(outcome) => {
                add_up(steps, &made);
                return (runner, Walked::Over(taken, outcome));
            }
            Passed::Halted => {
                add_up(steps, &made);
                return (runner, Walked::Stopped);
            }
        }
    }
    add_up(steps, &made);
    let outcome = Outcome::Answered(reply_of(body));
    (runner, Walked::Over(taken, outcome))
}
