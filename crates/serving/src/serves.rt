//! The requests of a worker, served in their order.
ghost use Rattle.std.specs.Prelude.{◌≡◌, ◌≢◌};
ghost use Rattle.runner_gate.specs.Asks.{HaltedOnce};
ghost use Rattle.attempt_bounds.specs.version_words.specs.TableState.{IsOf};
ghost use Rattle.attempt_bounds.specs.attempts.specs.caller_facts.specs.Counted.{IsSeen};
ghost use Rattle.serving.specs.declared.answers.Served.TheVariants as answers;
ghost use Rattle.serving.specs.Serving.{stop_of, MayServe, Serves};

use crate::answers::Served;
use crate::persists::persist;
use attempt_bounds::attempts::lock_walks::Planner;
use attempt_bounds::attempts::{Attempt, goes_on};
use attempt_bounds::attempts_spare_slots;
use attempt_bounds::version_words::{FlockTable, Runner};
use machine_states::body_terms::{StepKind, Steps};
use machine_states::map_history::Request;
use runner_gate::Gate;
use std::sync::Wait;
use std::thread::Threads;

/// What the serving stops with at this answer of a last attempt; none where the request is served.
fn stop(answer: Attempt) -> Option<Served>
    ensures { result ≡ stop_of answer }
{
    match answer {
        Attempt::Done { reply: _, stamp: _ } => None,
        Attempt::Short(short) => Some(Served::Short(short)),
        Attempt::Spent { place, word } => Some(Served::Spent { place, word }),
        _ => Some(Served::Halted),
    }
}

/// Serves a worker's requests in their order: attempts each until it is answered, and asks the gate once more
/// behind it.
///
/// The requests are the worker's own, each once, and of each trace in its order; none of them is answered yet. The
/// worker is idle.
///
/// `All` comes exactly where each request was answered and no ask halted. The serving tries a request again after
/// `Busy`, `Stale` and `Far`, and after `Short` where `retry_short` holds and slots of that kind are in limbo, or others
/// took those that lay on the board; for these it lets other threads go first. After any other `Short` and after `Spent` it stops with that answer, and
/// `Halted` comes only where the gate's count of halts rose in this call, and with the first halt. The requests behind
/// the one at which it stopped are unserved, and so is that one at `Short` and `Spent`.
///
/// It may wait for other runners, so what is promised holds if it returns. It takes no memory (Ben-David, Blelloch,
/// Wei, *Lock-free locks revisited*, 2022).
pub fn serve<R: Threads + Wait + Sync, S: Planner, G: Gate, L>(
    rt: &R,
    table: &FlockTable<S>,
    mut runner: Runner<S>,
    requests: &[Request],
    retry_short: bool,
    gate: &mut G,
    steps: &mut Steps<L>,
) -> (Runner<S>, Served)
    requires own { IsOf table.now runner }
    requires next { MayServe (S.planning table.now.structure) requests.now runner }
    ensures own { IsOf table.now result.0 }
    ensures serves { Serves (S.meaning table.now.structure) (S.planning table.now.structure) retry_short requests.now
        result.1 runner result.0 (IsSeen G.halts G.asks) (G.halts gate.old) (G.asks gate.old) (G.asks gate.new)
        steps.old.count steps.new.count }
    ensures halted { result.1 ≡ answers.Halted → HaltedOnce (G.halts gate.old) (G.halts gate.new) }
    ensures went { result.1 ≢ answers.Halted → G.halts gate.new ≡ G.halts gate.old }
{
    attempts_spare_slots(table.structure());
    for request in requests {
        let (next, answer) = persist(rt, table, runner, request, retry_short, gate, steps);
        if let Some(stopped) = stop(answer) {
            return (next, stopped);
        }
        if !goes_on(gate, StepKind::Served) {
            return (next, Served::Halted);
        }
        runner = next;
    }
    (runner, Served::All)
}
