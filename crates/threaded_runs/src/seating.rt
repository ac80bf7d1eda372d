//! The workers and their gates, given out before the run and taken back behind it.
ghost use Rattle.std.specs.Prelude.{◌≡◌, ◌+◌, ◌<◌, ◌≤◌, IfOk, OnErr, All, [], true, length, vec_len};
ghost use Rattle.version_words.specs.TableState.{IsOf};
ghost use Rattle.settled_tables.specs.Keeper.{IsIdleKeeper};
ghost use Rattle.threaded_runs.specs.Counts.{halts_counted, plans_given, plans_from, returns_counted, GivesFront};
ghost use Rattle.threaded_runs.specs.Jobs.{IsSeated, AllSeated, AllUnhalted, AllGiven, AreBack, AllKept, asks_counted};

use crate::job::{Finished, Job};
use crate::owned::requests_of;
use free_serving::serving::Served;
use lone_reads::seq_read::lock_walks::Planner;
use machine_states::map_history::Request;
use settled_tables::settling::runner_gate::{Gate, Gates};
use std::alloc::{AllocError, Global};
use version_words::{FlockTable, Runner};

/// The keeper, and the next worker with this gate and with its requests.
///
/// The requests are the table's. The Err is want of memory.
fn seat_worker<S: Planner, G: Gate + Drop>(
    table: &FlockTable<S>,
    alloc: Global,
    keeper: Runner<S>,
    requests: &[Request],
    worker: u32,
    gate: G,
) -> Result<(Runner<S>, Job<S, G>), AllocError>
    requires own { IsOf table.now keeper }
    requires keeper { IsIdleKeeper (S.meaning table.now.structure) worker 0 keeper }
    requires requests { requests.now ≡ table.now.requests }
    requires served { All (λ (request : Request). (S.planning table.now.structure).serves request.op ≡ true)
        requests.now }
    requires worker { worker < table.now.layout.runners }
    ensures own { IfOk result (λ x. IsOf table.now x.0) }
    ensures keeper { IfOk result (λ x. IsIdleKeeper (S.meaning table.now.structure) (worker + 1) 0 x.0) }
    ensures job { IfOk result (λ x. IsSeated (S.planning table.now.structure) table.now worker x.1) }
    ensures gate { IfOk result (λ x. x.1.gate ≡ gate) }
{
    let own = requests_of(alloc, requests, worker, table.layout().runners)?;
    match table.runner(alloc, keeper) {
        Ok((keeper, runner)) => Ok((
            keeper,
            Job {
                runner,
                gate,
                requests: own,
            },
        )),
        Err((_, failed)) => Err(failed),
    }
}

/// The keeper, and each worker with its gate and its requests, in order of number.
///
/// One gate is given for each worker, with its entry of `halts`. The Err is want of memory, for which the last ones
/// may have no gate.
pub fn make_jobs<S: Planner, G: Gates>(
    table: &FlockTable<S>,
    alloc: Global,
    mut keeper: Runner<S>,
    requests: &[Request],
    halts: &[Option<u64>],
    gates: &mut G,
) -> Result<(Runner<S>, Vec<Job<S, G::Gate>>), AllocError>
    requires own { IsOf table.now keeper }
    requires keeper { IsIdleKeeper (S.meaning table.now.structure) 0 0 keeper }
    requires requests { requests.now ≡ table.now.requests }
    requires served { All (λ (request : Request). (S.planning table.now.structure).serves request.op ≡ true)
        requests.now }
    requires halts { length halts.now ≡ table.now.layout.runners }
    requires few { length halts.now ≤ 16 }
    ensures own { IfOk result (λ x. IsOf table.now x.0) }
    ensures keeper { IfOk result (λ x. IsIdleKeeper (S.meaning table.now.structure) (length halts.now) 0 x.0) }
    ensures len { IfOk result (λ x. vec_len x.1 ≡ length halts.now) }
    ensures jobs { IfOk result (λ x. AllSeated (S.planning table.now.structure) table.now x.1.items) }
    ensures unhalted { IfOk result (λ x. AllUnhalted G.Gate.halts x.1.items) }
    ensures given { IfOk result (λ x. AllGiven G.Gate.asks halts.now x.1.items) }
    ensures halts { IfOk result (λ _. G.halts gates.new ≡ G.halts gates.old) }
    ensures asks { IfOk result (λ _. G.asks gates.new ≡ G.asks gates.old) }
    ensures plans { IfOk result (λ _. G.plans gates.new ≡ plans_given (G.plans gates.old) halts.now) }
    ensures planned { IfOk result (λ _. G.planned gates.old ≡ [] → G.planned gates.new ≡ plans_from 0 halts.now) }
    ensures returned { IfOk result (λ _. G.returned gates.new ≡ G.returned gates.old) }
    ensures front { OnErr result (GivesFront (G.plans gates.old) (G.plans gates.new)
        (G.planned gates.old) (G.planned gates.new) halts.now) }
{
    let mut jobs = Vec::with_capacity(alloc, halts.len())?;
    for worker in 0..halts.len() {
        let number = worker as u32;
        let gate = gates.gate(number, halts[worker]);
        let (kept, job) = seat_worker(table, alloc, keeper, requests, number, gate)?;
        keeper = kept;
        jobs.push(job)?;
    }
    Ok((keeper, jobs))
}

/// The keeper once it has joined each worker, with what the workers answered, in order of number. The gates are given
/// back in that order.
///
/// The Err is want of memory.
pub fn gather<S: Planner, G: Gates>(
    table: &FlockTable<S>,
    alloc: Global,
    mut keeper: Runner<S>,
    finished: Vec<Finished<S, G::Gate>>,
    gates: &mut G,
) -> Result<(Runner<S>, Vec<Served>), AllocError>
    requires own { IsOf table.now keeper }
    requires keeper { IsIdleKeeper (S.meaning table.now.structure) (vec_len finished) 0 keeper }
    requires back { AreBack G.Gate.halts table.now finished.items }
    requires each { vec_len finished ≡ table.now.layout.runners }
    ensures own { IfOk result (λ x. IsOf table.now x.0) }
    ensures keeper { IfOk result (λ x. IsIdleKeeper (S.meaning table.now.structure) (vec_len finished)
        (vec_len finished) x.0) }
    ensures len { IfOk result (λ x. vec_len x.1 ≡ vec_len finished) }
    ensures kept { IfOk result (λ x. AllKept x.0 x.1.items finished.items) }
    ensures halts { IfOk result (λ x. G.halts gates.new ≡ halts_counted (G.halts gates.old) x.1.items) }
    ensures asks { IfOk result (λ _. G.asks gates.new ≡ asks_counted G.Gate.asks (G.asks gates.old) finished.items) }
    ensures plans { G.plans gates.new ≡ G.plans gates.old }
    ensures planned { G.planned gates.new ≡ G.planned gates.old }
    ensures returned { IfOk result (λ _.
        G.returned gates.new ≡ returns_counted (G.returned gates.old) (vec_len finished)) }
{
    let mut answers = Vec::with_capacity(alloc, finished.len())?;
    for one in finished {
        let Finished {
            runner,
            gate,
            answer,
        } = one;
        keeper = table.join_runner(keeper, runner);
        gates.back(gate);
        answers.push(answer)?;
    }
    Ok((keeper, answers))
}
