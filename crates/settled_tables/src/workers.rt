//! The workers of a run, given out before it and taken back behind it.
ghost use Rattle.std.specs.Prelude.{◌≡◌, ◌+◌, ◌<◌, IfOk, vec_len};
ghost use Rattle.machine_states.specs.map_history.specs.Requests.{AreInOrder};
ghost use Rattle.machine_states.specs.table_words.specs.Limits.{IsWithinLimits};
ghost use Rattle.closed_words.specs.version_words.specs.TableState.{IsOf, IsNew};
ghost use Rattle.settled_tables.specs.Keeper.{IsIdleKeeper};
ghost use Rattle.settled_tables.specs.Seats.{IsNewWorker, AreNewWorkers, AreBack, AreReports};

use closed_words::version_words::{FlockTable, Runner};
use machine_states::map_history::Request;
use machine_states::structure_laws::Structure;
use machine_states::table_words::Layout;
use std::alloc::{AllocError, Global};

/// The keeper, and the next worker. The Err is want of memory.
fn seat_worker<S: Structure>(
    table: &FlockTable<S>,
    alloc: Global,
    keeper: Runner<S>,
    number: u32,
) -> Result<(Runner<S>, Runner<S>), AllocError>
    requires own { IsOf table.now keeper }
    requires keeper { IsIdleKeeper (S.meaning table.now.structure) number 0 keeper }
    requires number { number < table.now.layout.runners }
    ensures own { IfOk result (λ x. IsOf table.now x.0) }
    ensures keeper { IfOk result (λ x. IsIdleKeeper (S.meaning table.now.structure) (number + 1) 0 x.0) }
    ensures worker { IfOk result (λ x. IsNewWorker table.now number x.1) }
{
    match table.runner(alloc, keeper) {
        Ok((keeper, worker)) => Ok((keeper, worker)),
        Err((_, failed)) => Err(failed),
    }
}

/// The keeper, and all workers in order of number. The Err is want of memory.
fn seat_workers<S: Structure>(
    table: &FlockTable<S>,
    alloc: Global,
    mut keeper: Runner<S>,
) -> Result<(Runner<S>, Vec<Runner<S>>), AllocError>
    requires own { IsOf table.now keeper }
    requires keeper { IsIdleKeeper (S.meaning table.now.structure) 0 0 keeper }
    ensures own { IfOk result (λ x. IsOf table.now x.0) }
    ensures keeper { IfOk result (λ x.
        IsIdleKeeper (S.meaning table.now.structure) table.now.layout.runners 0 x.0) }
    ensures len { IfOk result (λ x. vec_len x.1 ≡ table.now.layout.runners) }
    ensures workers { IfOk result (λ x. AreNewWorkers table.now x.1.items) }
{
    let count = table.layout().runners;
    let mut workers = Vec::with_capacity(alloc, count as usize)?;
    for number in 0..count {
        let (kept, worker) = seat_worker(table, alloc, keeper, number)?;
        keeper = kept;
        workers.push(worker)?;
    }
    Ok((keeper, workers))
}

/// A new table with its keeper, and with all its workers in order of number.
///
/// The layout is within the limits; the requests are numbered from 0 in order, in traces that never fall along the list
/// and are below 64, with keys up to 4,294,967,293. The Err is want of memory.
pub fn open_table<S: Structure>(
    alloc: Global,
    structure: S,
    layout: Layout,
    requests: &[Request],
) -> Result<(FlockTable<S>, Runner<S>, Vec<Runner<S>>), AllocError>
    requires limits { IsWithinLimits layout }
    requires ordered { AreInOrder requests.now 64 }
    ensures table { IfOk result (λ x. IsNew structure layout requests.now x.0) }
    ensures own { IfOk result (λ x. IsOf x.0 x.1) }
    ensures keeper { IfOk result (λ x. IsIdleKeeper (S.meaning x.0.structure) layout.runners 0 x.1) }
    ensures len { IfOk result (λ x. vec_len x.2 ≡ layout.runners) }
    ensures workers { IfOk result (λ x. AreNewWorkers x.0 x.2.items) }
{
    let (table, keeper) = FlockTable::new(alloc, structure, layout, requests)?;
    let (keeper, workers) = seat_workers(&table, alloc, keeper)?;
    Ok((table, keeper, workers))
}

/// The keeper once it has joined each worker, wherever it stands, and what the workers report, in order of number.
///
/// The Err is want of memory.
pub fn join_workers<S: Structure, A: Drop>(
    table: &FlockTable<S>,
    alloc: Global,
    mut keeper: Runner<S>,
    workers: Vec<(Runner<S>, A)>,
) -> Result<(Runner<S>, Vec<A>), AllocError>
    requires own { IsOf table.now keeper }
    requires keeper { IsIdleKeeper (S.meaning table.now.structure) (vec_len workers) 0 keeper }
    requires back { AreBack table.now workers.items }
    requires each { vec_len workers ≡ table.now.layout.runners }
    ensures own { IfOk result (λ x. IsOf table.now x.0) }
    ensures keeper { IfOk result (λ x.
        IsIdleKeeper (S.meaning table.now.structure) (vec_len workers) (vec_len workers) x.0) }
    ensures len { IfOk result (λ x. vec_len x.1 ≡ vec_len workers) }
    ensures reports { IfOk result (λ x. AreReports workers.items x.1.items) }
{
    let mut reports = Vec::with_capacity(alloc, workers.len())?;
    for one in workers {
        let (worker, report) = one;
        keeper = table.join_runner(keeper, worker);
        reports.push(report)?;
    }
    Ok((keeper, reports))
}
