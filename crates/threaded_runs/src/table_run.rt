//! The whole run of a table.
ghost use Rattle.std.specs.Prelude.{◌≡◌, IfOk, OnErr, All, [], true, length};
ghost use Rattle.machine_states.specs.map_history.specs.Requests.{AreInOrder};
ghost use Rattle.machine_states.specs.table_words.specs.Limits.{IsWithinLimits};
ghost use Rattle.threaded_runs.specs.Counts.{halts_counted, plans_given, plans_from, returns_counted, GivesFront};
ghost use Rattle.threaded_runs.specs.Asks.{AreAsked};
ghost use Rattle.threaded_runs.specs.Gates.{GatesCameBack};
ghost use Rattle.threaded_runs.specs.Lone.{ServesAlone, ReadsAlone};
ghost use Rattle.threaded_runs.specs.Runs.{IsMadeWith, AreServed};

use crate::running::run_jobs;
use crate::seating::{gather, make_jobs};
use free_serving::serving::Served;
use free_serving::serving::attempt_bounds::{attempts_spare_slots, lone_attempts_are_served};
use lone_reads::lone_reads_are_served;
use lone_reads::seq_read::lock_walks::Planner;
use machine_states::map_history::Request;
use machine_states::table_words::Layout;
use reached_facts::table_keeps_its_facts;
use settled_tables::closed_words::closed_words_have_a_history;
use settled_tables::settling::runner_gate::Gates;
use settled_tables::settling::settle;
use std::alloc::{AllocError, Global};
use std::sync::Wait;
use std::thread::Threads;
use version_words::{FlockTable, Words};

/// Runs all requests on one new table, with a thread for each worker where one can be made, and gives the words at the
/// end with what the serving of each worker's requests answered, in order of number.
///
/// Worker r of W serves the traces r, r + W, r + 2 * W and so on, each whole, in that order. It has the gate that
/// `gates` gives for it with its entry of `halts`, one for each worker. Where `retry_short` holds, a worker that lacks
/// slots tries again while some of its own are in limbo, or others took those that lay on the board. Where `reads_free`
/// holds, each `get` is read first, without its lock, and served under its lock where the read came to nothing; all else
/// is served under its lock. Where no thread can be made for a worker, the caller does its work. Once all threads are
/// joined, the keeper joins the workers, the gates are given back in order of number, what halted workers left is helped
/// to its end, and the table is closed.
///
/// The layout is within the limits; the requests are numbered from 0 in order, in traces that never fall along the list
/// and are below 64, with keys up to 4,294,967,293, and the structure serves them. The Err is want of memory. A worker
/// that waits for slots may wait for others, so the promises hold if the call returns.
///
/// (After Ben-David, Blelloch and Wei, *Lock-free locks revisited*, 2022.)
pub fn run_table<R: Threads + Wait + Sync, S: Planner, G: Gates>(
    rt: &R,
    alloc: Global,
    structure: S,
    layout: Layout,
    requests: &[Request],
    halts: &[Option<u64>],
    retry_short: bool,
    reads_free: bool,
    gates: &mut G,
) -> Result<(Words<S>, Vec<Served>), AllocError>
where
    S::Walk: Send + Sync,
    requires limits { IsWithinLimits layout }
    requires ordered { AreInOrder requests.now 64 }
    requires served { All (λ (request : Request). (S.planning structure).serves request.op ≡ true) requests.now }
    requires halts { length halts.now ≡ layout.runners }
    ensures words { IfOk result (λ x. IsMadeWith structure layout requests.now x.0) }
    ensures served { IfOk result (λ x. AreServed (S.meaning structure) x.0 retry_short reads_free x.1.items
        × ServesAlone (S.meaning structure) (S.planning structure).per_pair x.0 x.1.items
        × AreAsked (S.meaning structure) x.0 reads_free x.1.items (G.asks gates.old) (G.asks gates.new)
        × ReadsAlone (S.meaning structure) x.0 reads_free) }
    ensures halts { IfOk result (λ x. G.halts gates.new ≡ halts_counted (G.halts gates.old) x.1.items) }
    ensures plans { IfOk result (λ _. G.plans gates.new ≡ plans_given (G.plans gates.old) halts.now) }
    // For each worker a gate was given with its entry of the halts, in order of number, and each came back: with what
    // the worker did that it was given for.
    ensures planned { IfOk result (λ _. G.planned gates.old ≡ [] → G.planned gates.new ≡ plans_from 0 halts.now) }
    ensures returned { IfOk result (λ _. G.returned gates.new ≡ returns_counted (G.returned gates.old) layout.runners) }
    ensures gates { IfOk result (λ x. GatesCameBack (S.meaning structure) x.0 reads_free G.Gate.halts G.Gate.asks
        halts.now x.1.items (G.asks gates.old) (G.asks gates.new)) }
    // At an Err gates were given for the first workers alone, each with its entry.
    ensures front { OnErr result (GivesFront (G.plans gates.old) (G.plans gates.new)
        (G.planned gates.old) (G.planned gates.new) halts.now) }
{
    let (table, keeper) = FlockTable::new(alloc, structure, layout, requests)?;
    table_keeps_its_facts(&table);
    lone_attempts_are_served(table.structure());
    attempts_spare_slots(table.structure());
    lone_reads_are_served(table.structure());
    let (keeper, jobs) = make_jobs(&table, alloc, keeper, requests, halts, gates)?;
    let finished = run_jobs(rt, &table, retry_short, reads_free, jobs)?;
    let (keeper, answers) = gather(&table, alloc, keeper, finished, gates)?;
    let keeper = settle(&table, keeper);
    let words = table.close(keeper);
    closed_words_have_a_history(&words);
    Ok((words, answers))
}
