//! One request, read first where it is a `get`, and served under its lock where that came to nothing.
ghost use Rattle.std.specs.Prelude.{◌≡◌, ◌≢◌, [], ◌∷◌};
ghost use Rattle.seq_read.specs.runner_gate.specs.Asks.{HaltedOnce};
ghost use Rattle.version_words.specs.TableState.{IsOf};
ghost use Rattle.seq_read.specs.caller_facts.specs.Counted.{IsSeen};
ghost use Rattle.serving.specs.Serving.{MayServe};
ghost use Rattle.serving.specs.declared.answers.Served.TheVariants as answers;
ghost use Rattle.free_serving.specs.Services.{is_get as is_get_of, ends_alone as ends_alone_of};
ghost use Rattle.free_serving.specs.One.{ServesOne};

use machine_states::body_terms::{StepKind, Steps};
use machine_states::map_history::{Op, Request};
use seq_read::lock_walks::Planner;
use seq_read::runner_gate::Gate;
use seq_read::{Read, read};
use serving::attempt_bounds::attempts::goes_on;
use serving::attempt_bounds::attempts_spare_slots;
use serving::{Served, serve};
use std::slice;
use std::sync::Wait;
use std::thread::Threads;
use version_words::{FlockTable, Runner};

/// Whether the operation is a `get`.
fn is_get(op: Op) -> bool
    ensures { result ≡ is_get_of op }
{
    matches!(op, Op::Get(_))
}

/// How the serving ends where a runner that is alone met a lock with too few versions left in its read. An attempt
/// would find it as it stands.
fn ends_alone(runners: u32, answer: &Read) -> Option<Served>
    ensures { result ≡ ends_alone_of runners answer.now }
{
    match *answer {
        Read::Spent { place, word } if runners == 1 => Some(Served::Spent { place, word }),
        _ => None,
    }
}

/// Serves one request: a `get` is read once, and any other one, or one whose read came to nothing, is served under its
/// lock. Where one runner is alone, and its read met a lock with too few versions left, the serving stops there.
///
/// `All` comes exactly where the request was answered and no ask halted.
pub fn serve_one<R: Threads + Wait + Sync, S: Planner, G: Gate, L>(
    rt: &R,
    table: &FlockTable<S>,
    runner: Runner<S>,
    request: &Request,
    retry_short: bool,
    gate: &mut G,
    steps: &mut Steps<L>,
) -> (Runner<S>, Served)
    requires own { IsOf table.now runner }
    requires next { MayServe (S.planning table.now.structure) (request.now ∷ []) runner }
    ensures own { IsOf table.now result.0 }
    ensures one { ServesOne (S.meaning table.now.structure) (S.planning table.now.structure) retry_short request.now
        result.1 runner result.0 (IsSeen G.halts G.asks) (G.halts gate.old) (G.asks gate.old) (G.asks gate.new)
        steps.old.count steps.new.count }
    ensures halted { result.1 ≡ answers.Halted → HaltedOnce (G.halts gate.old) (G.halts gate.new) }
    ensures went { result.1 ≢ answers.Halted → G.halts gate.new ≡ G.halts gate.old }
{
    attempts_spare_slots(table.structure());
    let only = slice::from_ref(request);
    if !is_get(request.op) {
        return serve(rt, table, runner, only, retry_short, gate, steps);
    }
    let (runner, answer) = read(table, runner, request, gate, steps);
    match answer {
        Read::Done { reply: _, stamp: _ } => {
            if goes_on(gate, StepKind::Served) {
                (runner, Served::All)
            } else {
                (runner, Served::Halted)
            }
        }
        Read::Halted => (runner, Served::Halted),
        _ => match ends_alone(table.layout().runners, &answer) {
            Some(served) => (runner, served),
            None => serve(rt, table, runner, only, retry_short, gate, steps),
        },
    }
}
