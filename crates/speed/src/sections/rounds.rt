//! Tables, on each of which a worker serves its requests.
ghost use Rattle.std.specs.Prelude.{◌≡◌, ◌≤◌};
ghost use Rattle.table_steps.specs.version_words.specs.TableState.{IsOf};
ghost use Rattle.speed.specs.Scenes.{IsScene};
ghost use Rattle.speed.specs.Workers.{IsBefore};

use crate::sections::requests::serve;
use crate::sections::scenes::{close, new_table, worker};
use interleave_core::Tray;
use std::alloc::{AllocError, Global};
use table_steps::version_words::{FlockTable, Runner};

/// So many, and no more than there are requests.
fn at_most_eight(count: u32) -> u32
    ensures { result ≤ 8 }
{
    if count < 8 { count } else { 8 }
}

/// Serves the first so many of the worker's eight requests, one after the other, and adds up the replies.
#[inline(never)]
fn serve_all(table: &FlockTable<Tray>, worker: Runner<Tray>, count: u32) -> (Runner<Tray>, u64)
    requires own { IsOf table.now worker }
    requires scene { IsScene table.now }
    requires before { IsBefore 0 worker }
    ensures own { IsOf table.now result.0 }
    ensures number { result.0.number ≡ 0 }
{
    let most = at_most_eight(count);
    let mut worker = worker;
    let mut sum = 0_u64;
    for request in 0..most {
        let (served, reply) = serve(table, worker, request);
        worker = served;
        let Some(reply) = reply else {
            return (worker, sum);
        };
        sum = sum.wrapping_add(reply);
    }
    (worker, sum)
}

/// A new table, whose worker serves so many requests; it is closed in the end. The answer is the sum of the replies.
fn make_round(alloc: Global, each: u32) -> Result<u64, AllocError> {
    let (table, keeper) = new_table(alloc)?;
    let (keeper, worker) = worker(&table, alloc, keeper)?;
    let (worker, sum) = serve_all(&table, worker, each);
    drop(close(table, keeper, worker));
    Ok(sum)
}

/// So many tables, with so many sections on each: the sum of the replies.
pub fn make_rounds(alloc: Global, each: u32, tables: u32) -> Result<u64, AllocError> {
    let mut sum = 0_u64;
    for _ in 0..tables {
        sum = sum.wrapping_add(make_round(alloc, each)?);
    }
    Ok(sum)
}
