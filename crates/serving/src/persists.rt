//! One request, attempted until it is answered.
ghost use Rattle.std.specs.Prelude.{◌≡◌, ◌≢◌};
ghost use Rattle.runner_gate.specs.Asks.{HaltedOnce};
ghost use Rattle.attempt_bounds.specs.version_words.specs.TableState.{IsOf};
ghost use Rattle.attempt_bounds.specs.attempts.specs.caller_facts.specs.Counted.{IsSeen};
ghost use Rattle.attempt_bounds.specs.attempts.specs.caller_facts.specs.Asking.{MayAttempt};
ghost use Rattle.attempt_bounds.specs.attempts.specs.declared.answers.Attempt.TheVariants as attempts;
ghost use Rattle.serving.specs.Serving.{is_tried_again, Persists};

use attempt_bounds::attempts::lock_walks::Planner;
use attempt_bounds::attempts::{Attempt, attempt};
use attempt_bounds::version_words::{FlockTable, Runner};
use machine_states::body_terms::Steps;
use machine_states::map_history::Request;
use runner_gate::Gate;
use std::sync::Wait;
use std::thread::yield_now;

/// Whether a request is attempted again after this answer.
fn is_again(answer: &Attempt, retry_short: bool) -> bool
    ensures { result ≡ is_tried_again retry_short answer.now }
{
    match answer {
        Attempt::Busy { place: _, word: _ } => true,
        Attempt::Stale {
            place: _,
            expected: _,
            read: _,
        } => true,
        Attempt::Far { loads: _ } => true,
        Attempt::Short(short) => retry_short && (short.limbo != 0 || short.board != 0),
        _ => false,
    }
}

/// Lets the other threads go first where slots were wanted: those in limbo come back only once the others have gone on,
/// and who takes slots from the board gives some once it has many.
fn make_way(answer: &Attempt) {
    if let Attempt::Short(_) = answer {
        yield_now();
    }
}

/// Attempts the request until it is answered, or until it isn't attempted again.
pub fn persist<R: Wait, S: Planner, G: Gate, L>(
    rt: &R,
    table: &FlockTable<S>,
    mut runner: Runner<S>,
    request: &Request,
    retry_short: bool,
    gate: &mut G,
    steps: &mut Steps<L>,
) -> (Runner<S>, Attempt)
    requires own { IsOf table.now runner }
    requires next { MayAttempt (S.planning table.now.structure) request.now runner }
    ensures own { IsOf table.now result.0 }
    ensures persists { Persists (S.meaning table.now.structure) (S.planning table.now.structure) retry_short request.now
        result.1 runner result.0 (IsSeen G.halts G.asks) (G.halts gate.old) (G.asks gate.old) (G.asks gate.new)
        steps.old.count steps.new.count }
    ensures halted { result.1 ≡ attempts.Halted → HaltedOnce (G.halts gate.old) (G.halts gate.new) }
    ensures went { result.1 ≢ attempts.Halted → G.halts gate.new ≡ G.halts gate.old }
{
    for _ in rt.forever() {
        let (next, answer) = attempt(table, runner, request, gate, steps);
        if !is_again(&answer, retry_short) {
            return (next, answer);
        }
        make_way(&answer);
        runner = next;
    }
    unreachable!()
}
