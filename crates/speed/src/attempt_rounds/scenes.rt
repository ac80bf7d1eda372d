//! A table with one worker, who serves all of its requests.
ghost use Rattle.std.specs.Prelude.{◌≡◌, ◌≤◌, IfOk, length};
ghost use Rattle.machine_states.specs.map_history.specs.Requests.{AreInOrder};
ghost use Rattle.machine_states.specs.table_words.specs.Limits.{IsWithinLimits};
ghost use Rattle.table_steps.specs.version_words.specs.TableState.{IsOf};
ghost use Rattle.table_steps.specs.version_words.specs.Stages.{IsKeeper, HasJoined};
ghost use Rattle.speed.specs.Fresh.{IsFresh};

use hash_table::lock_walks::Planner;
use machine_states::map_history::Request;
use machine_states::table_words::Layout;
use std::alloc::{AllocError, Global};
use table_steps::version_words::{FlockTable, Runner, Words};

/// How many of the requests may add a pair.
fn insertions(requests: &[Request]) -> u32
    requires few { length requests.now ≤ 131072 }
    ensures few { result ≤ 131072 }
{
    requests
        .iter()
        .filter(|request| request.op.may_add())
        .count() as u32
}

/// The numbers that fix a table for one worker with these requests, as the program `flock` has them where its
/// words give none: two node slots for each insertion and eight more, but no more than there may be.
fn layout_for(requests: &[Request]) -> Layout
    requires few { length requests.now ≤ 131072 }
    ensures limits { IsWithinLimits result }
    ensures runners { result.runners ≡ 1 }
{
    Layout {
        runners: 1,
        nodes: (2 * insertions(requests) + 8).min(262_144),
        sections: 64,
        version_max: 4_294_967_295,
    }
}

/// A table of this structure with one worker and these requests, and its keeper.
pub fn new_table<S: Planner>(
    alloc: Global,
    structure: S,
    requests: &[Request],
) -> Result<(FlockTable<S>, Runner<S>), AllocError>
    requires ordered { AreInOrder requests.now 64 }
    ensures structure { IfOk result (λ x. x.0.structure ≡ structure) }
    ensures runners { IfOk result (λ x. x.0.layout.runners ≡ 1) }
    ensures requests { IfOk result (λ x. x.0.requests ≡ requests.now) }
    ensures own { IfOk result (λ x. IsOf x.0 x.1) }
    ensures keeper { IfOk result (λ x. IsKeeper x.1 0 × HasJoined x.1 0) }
{
    let layout = layout_for(requests);
    let (table, keeper) = FlockTable::new(alloc, structure, layout, requests)?;
    Ok((table, keeper))
}

/// The keeper, and the worker.
pub fn split<S: Planner>(
    table: &FlockTable<S>,
    alloc: Global,
    keeper: Runner<S>,
) -> Result<(Runner<S>, Runner<S>), AllocError>
    requires runners { table.now.layout.runners ≡ 1 }
    requires own { IsOf table.now keeper }
    requires keeper { IsKeeper keeper 0 × HasJoined keeper 0 }
    ensures own { IfOk result (λ x. IsOf table.now x.0 × IsOf table.now x.1) }
    ensures keeper { IfOk result (λ x. IsKeeper x.0 1 × HasJoined x.0 0) }
    ensures worker { IfOk result (λ x. IsFresh x.1) }
{
    match table.runner(alloc, keeper) {
        Ok(both) => Ok(both),
        Err((_, failed)) => Err(failed),
    }
}

/// The words after the worker was joined, wherever it stands.
pub fn close<S: Planner>(table: FlockTable<S>, keeper: Runner<S>, worker: Runner<S>) -> Words<S>
    requires runners { table.layout.runners ≡ 1 }
    requires own { IsOf table keeper × IsOf table worker }
    requires keeper { IsKeeper keeper 1 × HasJoined keeper 0 }
    requires number { worker.number ≡ 0 }
    ensures { result.requests ≡ table.requests }
{
    let keeper = table.join_runner(keeper, worker);
    table.close(keeper)
}
