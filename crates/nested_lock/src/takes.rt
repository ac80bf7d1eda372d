//! The Take of a further lock.
ghost use Rattle.std.specs.Prelude.{◌≡◌, ℕ, ◌+◌, IfSome, IfNone, Some};
ghost use Rattle.machine_states.specs.runner_parts.specs.State.{RunState};
ghost use Rattle.commit_log.specs.version_words.specs.TableState.{IsOf};
ghost use Rattle.commit_log.specs.Runs.{IsRunning};
ghost use Rattle.commit_log.specs.Halted.{IsHalted, IsThrough};
ghost use Rattle.commit_log.specs.Links.{links_cost};
ghost use Rattle.nested_lock.specs.Taken.{MayTake, MayHold, HasTaken, HasHeld, Takes};

use crate::answers::{first_answer, second_answer};
use commit_log::version_words::{FlockTable, Runner};
use commit_log::{Unasked, commit, link_if_due, passes};
use machine_states::body_terms::{Place, Refused, StepKind, Steps, Word};
use machine_states::structure_laws::Structure;
use runner_gate::Gate;

/// How a Take ended, and the words of its lock that were agreed on.
#[derive(Clone, Copy, Debug, PartialEq, Eq)]
pub struct TakeEnd {
    /// Whether the lock was taken, and why not.
    pub answer: Result<(), Refused>,
    /// The word before the lock was to be taken.
    pub first: Word,
    /// The word behind the exchange that was to take it, where that was made.
    pub second: Option<Word>,
}

/// Takes a further lock for the section that the runner runs, with the free word that the lock is expected to hold.
/// The lock's word is loaded and agreed on. Where the agreed word names a descriptor the answer is Busy; where it is
/// free and has no version left to be taken and released, Spent; where it isn't the expected one, Stale. Otherwise one
/// exchange from the expected word to the one that names this section is made, and the lock's word is loaded and agreed
/// on again. The answer is Ok exactly where this second agreed word is the one that names this section; else it is
/// Busy, Spent or Stale by that word, in this order. Each refusal carries the agreed word.
///
/// The runner has to be in a run whose next step takes this lock with this word. Two steps are made for a refusal by
/// the first word, else five, and those of a link before each word where one is due. No memory is taken (Ben-David,
/// Blelloch, Wei, 2022).
pub fn take<S: Structure>(
    table: &FlockTable<S>,
    runner: Runner<S>,
    place: Place,
    expected: Word,
) -> (Runner<S>, Result<(), Refused>)
    requires own { IsOf table.now runner }
    requires next { (q : RunState) × MayTake (S.meaning table.now.structure) runner place expected q }
    ensures own { IsOf table.now result.0 }
    ensures taken { (q : RunState) → IsRunning (S.meaning table.now.structure) runner q
        → Takes (S.meaning table.now.structure) place expected result.1 runner result.0 q }
{
    let descriptor = runner.descriptor();
    let mut gate = Unasked;
    let mut steps = Steps::<()>::new();
    match take_gated(
        table, runner, descriptor, place, expected, &mut gate, &mut steps,
    ) {
        (runner, Some(end)) => (runner, end.answer),
        _ => unreachable!(),
    }
}

/// The same for the section of this descriptor, which the runner runs, counting each step and asking the gate after it.
/// Both agreed words come with the answer; None where the gate halted the runner.
pub fn take_gated<S: Structure, G: Gate, L>(
    table: &FlockTable<S>,
    runner: Runner<S>,
    descriptor: u32,
    place: Place,
    expected: Word,
    gate: &mut G,
    steps: &mut Steps<L>,
) -> (Runner<S>, Option<TakeEnd>)
    requires own { IsOf table.now runner }
    requires next { (q : RunState) × MayTake (S.meaning table.now.structure) runner place expected q }
    requires section { (q : RunState) → IsRunning (S.meaning table.now.structure) runner q
        → descriptor ≡ q.descriptor }
    ensures own { IsOf table.now result.0 }
    ensures taken { IfSome result.1 (λ end. (q : RunState) → IsRunning (S.meaning table.now.structure) runner q
        → HasTaken (S.meaning table.now.structure) place expected end runner result.0 q) }
    ensures through { IfSome result.1 (λ end. (q : RunState) → IsRunning (S.meaning table.now.structure) runner q
        → IsThrough (S.meaning table.now.structure) (5 + links_cost 2 q) runner result.0
        (G.halts gate.old) (G.halts gate.new) (G.asks gate.old) (G.asks gate.new) steps.old.count steps.new.count) }
    ensures halted { IfNone result.1 ((q : RunState) → IsRunning (S.meaning table.now.structure) runner q
        → IsHalted (S.meaning table.now.structure) (5 + links_cost 2 q) runner result.0
        (G.halts gate.old) (G.halts gate.new) (G.asks gate.old) (G.asks gate.new) steps.old.count steps.new.count) }
{
    let (runner, word) = table.nested_load(runner, place);
    if !passes(gate, steps, StepKind::NestedLoad) {
        return (runner, None);
    }
    let (runner, linked) = link_if_due(table, runner, gate, steps);
    if !linked {
        return (runner, None);
    }
    let (runner, agreed, _) = commit(table, runner, word.bits());
    if !passes(gate, steps, StepKind::Commit) {
        return (runner, None);
    }
    let read = Word::from_bits(agreed);
    let first = first_answer(table.layout().version_max, expected, read);
    if first.is_err() {
        return (
            runner,
            Some(TakeEnd {
                answer: first,
                first: read,
                second: None,
            }),
        );
    }
    hold_gated(
        table, runner, descriptor, place, expected, read, gate, steps,
    )
}

/// The second half of a Take: the exchange that is to take the lock, and the agreement on what it left.
fn hold_gated<S: Structure, G: Gate, L>(
    table: &FlockTable<S>,
    runner: Runner<S>,
    descriptor: u32,
    place: Place,
    expected: Word,
    first: Word,
    gate: &mut G,
    steps: &mut Steps<L>,
) -> (Runner<S>, Option<TakeEnd>)
    requires own { IsOf table.now runner }
    requires next { (q : RunState) × MayHold (S.meaning table.now.structure) runner place expected q }
    requires section { (q : RunState) → IsRunning (S.meaning table.now.structure) runner q
        → descriptor ≡ q.descriptor }
    ensures own { IsOf table.now result.0 }
    ensures first { IfSome result.1 (λ end. end.first ≡ first) }
    ensures held { IfSome result.1 (λ end. (q : RunState) → IsRunning (S.meaning table.now.structure) runner q
        → (read : ℕ) × (end.second ≡ Some read)
        × HasHeld (S.meaning table.now.structure) place expected read end.answer runner result.0 q) }
    ensures through { IfSome result.1 (λ end. (q : RunState) → IsRunning (S.meaning table.now.structure) runner q
        → IsThrough (S.meaning table.now.structure) (3 + links_cost 1 q) runner result.0
        (G.halts gate.old) (G.halts gate.new) (G.asks gate.old) (G.asks gate.new) steps.old.count steps.new.count) }
    ensures halted { IfNone result.1 ((q : RunState) → IsRunning (S.meaning table.now.structure) runner q
        → IsHalted (S.meaning table.now.structure) (3 + links_cost 1 q) runner result.0
        (G.halts gate.old) (G.halts gate.new) (G.asks gate.old) (G.asks gate.new) steps.old.count steps.new.count) }
{
    let runner = table.nested_hold(runner, place, expected);
    if !passes(gate, steps, StepKind::NestedHold) {
        return (runner, None);
    }
    let (runner, word) = table.outcome_load(runner, place);
    if !passes(gate, steps, StepKind::OutcomeLoad) {
        return (runner, None);
    }
    let (runner, linked) = link_if_due(table, runner, gate, steps);
    if !linked {
        return (runner, None);
    }
    let (runner, agreed) = table.outcome_commit(runner, word);
    if !passes(gate, steps, StepKind::OutcomeCommit) {
        return (runner, None);
    }
    let answer = second_answer(table.layout().version_max, descriptor, expected, agreed);
    (
        runner,
        Some(TakeEnd {
            answer,
            first,
            second: Some(agreed),
        }),
    )
}
