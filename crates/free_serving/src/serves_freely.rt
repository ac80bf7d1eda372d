//! The requests of a worker, served in their order, each `get` read first where that is asked for.
ghost use Rattle.std.specs.Prelude.{◌≡◌, ◌≢◌, true};
ghost use Rattle.seq_read.specs.runner_gate.specs.Asks.{HaltedOnce};
ghost use Rattle.version_words.specs.TableState.{IsOf};
ghost use Rattle.seq_read.specs.caller_facts.specs.Counted.{IsSeen};
ghost use Rattle.serving.specs.Serving.{MayServe};
ghost use Rattle.serving.specs.declared.answers.Served.TheVariants as answers;
ghost use Rattle.free_serving.specs.Freely.{ServesAll};

use crate::one::serve_one;
use machine_states::body_terms::Steps;
use machine_states::map_history::Request;
use seq_read::lock_walks::Planner;
use seq_read::runner_gate::Gate;
use serving::{Served, serve};
use std::sync::Wait;
use std::thread::Threads;
use version_words::{FlockTable, Runner};

/// Serves a worker's requests in their order, each `get` read first.
fn serve_each<R: Threads + Wait + Sync, S: Planner, G: Gate, L>(
    rt: &R,
    table: &FlockTable<S>,
    mut runner: Runner<S>,
    requests: &[Request],
    retry_short: bool,
    gate: &mut G,
    steps: &mut Steps<L>,
) -> (Runner<S>, Served)
    requires own { IsOf table.now runner }
    requires next { MayServe (S.planning table.now.structure) requests.now runner }
    ensures own { IsOf table.now result.0 }
    ensures serves { ServesAll (S.meaning table.now.structure) (S.planning table.now.structure) retry_short true
        requests.now result.1 runner result.0 (IsSeen G.halts G.asks) (G.halts gate.old) (G.asks gate.old)
        (G.asks gate.new) steps.old.count steps.new.count }
    ensures halted { result.1 ≡ answers.Halted → HaltedOnce (G.halts gate.old) (G.halts gate.new) }
    ensures went { result.1 ≢ answers.Halted → G.halts gate.new ≡ G.halts gate.old }
{
    for request in requests {
        let (next, answer) = serve_one(rt, table, runner, request, retry_short, gate, steps);
        match answer {
            Served::All => runner = next,
            stopped => return (next, stopped),
        }
    }
    (runner, Served::All)
}

/// Serves a worker's requests in their order: where `reads_free` doesn't hold, as `serve` does. Where it does, each
/// `get` is read once, without its lock, and the gate asked once more behind a read that served it; a `get` whose read
/// came to nothing, and each other request, is served by `serve`, under its lock. Where the worker is alone, and its
/// read met a lock with too few versions left, the serving ends with `Spent` at once.
///
/// The requests are the worker's own, each once, and of each trace in its order; none of them is answered yet. The
/// worker is idle.
///
/// `All` comes exactly where each request was answered and no ask halted. `Short` is that of the `serve` that came
/// last, since a read takes no slot; `Spent` is that of the read or of the `serve` that came last; and `Halted` comes
/// only where the gate's count of halts rose in this call, and with the first halt. The requests behind the one at
/// which it stopped are unserved, and so is that one at `Short` and `Spent`.
///
/// It may wait for other runners, so what is promised holds if it returns. It takes no memory (after Hemminger's
/// seqlocks, and Ben-David, Blelloch, Wei, *Lock-free locks revisited*, 2022).
pub fn serve_freely<R: Threads + Wait + Sync, S: Planner, G: Gate, L>(
    rt: &R,
    table: &FlockTable<S>,
    runner: Runner<S>,
    requests: &[Request],
    retry_short: bool,
    reads_free: bool,
    gate: &mut G,
    steps: &mut Steps<L>,
) -> (Runner<S>, Served)
    requires own { IsOf table.now runner }
    requires next { MayServe (S.planning table.now.structure) requests.now runner }
    ensures own { IsOf table.now result.0 }
    ensures serves { ServesAll (S.meaning table.now.structure) (S.planning table.now.structure) retry_short reads_free
        requests.now result.1 runner result.0 (IsSeen G.halts G.asks) (G.halts gate.old) (G.asks gate.old)
        (G.asks gate.new) steps.old.count steps.new.count }
    ensures halted { result.1 ≡ answers.Halted → HaltedOnce (G.halts gate.old) (G.halts gate.new) }
    ensures went { result.1 ≢ answers.Halted → G.halts gate.new ≡ G.halts gate.old }
{
    if reads_free {
        serve_each(rt, table, runner, requests, retry_short, gate, steps)
    } else {
        serve(rt, table, runner, requests, retry_short, gate, steps)
    }
}
