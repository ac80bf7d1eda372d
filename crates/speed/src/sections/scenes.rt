//! A table of the test structure with one worker, who has eight requests.
ghost use Rattle.std.specs.Prelude.{◌≡◌, IfOk};
ghost use Rattle.table_steps.specs.version_words.specs.TableState.{IsOf};
ghost use Rattle.table_steps.specs.version_words.specs.Stages.{IsKeeper, HasJoined};
ghost use Rattle.speed.specs.Scenes.{IsScene, request_of};
ghost use Rattle.speed.specs.Workers.{IsBefore};

use interleave_core::Tray;
use machine_states::map_history::{Op, Request};
use machine_states::table_words::Layout;
use std::alloc::{AllocError, Global};
use table_steps::version_words::{FlockTable, Runner, Words};

/// The first request of a trace of its own.
fn first_of(number: u32) -> Request
    ensures { result ≡ request_of number }
{
    Request {
        trace: number,
        number,
        op: Op::Get(1),
    }
}

/// A table with two node slots and eight descriptors for one worker, who has eight requests, each the first of its
/// trace.
pub fn new_table(alloc: Global) -> Result<(FlockTable<Tray>, Runner<Tray>), AllocError>
    ensures own { IfOk result (λ x. IsOf x.0 x.1) }
    ensures keeper { IfOk result (λ x. IsKeeper x.1 0 × HasJoined x.1 0) }
    ensures scene { IfOk result (λ x. IsScene x.0) }
{
    let layout = Layout {
        runners: 1,
        nodes: 2,
        sections: 8,
        version_max: 4294967295,
    };
    let requests = [
        first_of(0),
        first_of(1),
        first_of(2),
        first_of(3),
        first_of(4),
        first_of(5),
        first_of(6),
        first_of(7),
    ];
    let (table, keeper) = FlockTable::new(alloc, Tray, layout, &requests)?;
    Ok((table, keeper))
}

/// The keeper, and the worker.
pub fn worker(
    table: &FlockTable<Tray>,
    alloc: Global,
    keeper: Runner<Tray>,
) -> Result<(Runner<Tray>, Runner<Tray>), AllocError>
    requires own { IsOf table.now keeper }
    requires scene { IsScene table.now }
    requires keeper { IsKeeper keeper 0 × HasJoined keeper 0 }
    ensures own { IfOk result (λ x. IsOf table.now x.0 × IsOf table.now x.1) }
    ensures keeper { IfOk result (λ x. IsKeeper x.0 1 × HasJoined x.0 0) }
    ensures worker { IfOk result (λ x. IsBefore 0 x.1) }
{
    match table.runner(alloc, keeper) {
        Ok(both) => Ok(both),
        Err(_) => Err(AllocError),
    }
}

/// The words after the worker was joined, wherever it stands.
pub fn close(table: FlockTable<Tray>, keeper: Runner<Tray>, worker: Runner<Tray>) -> Words<Tray>
    requires own { IsOf table keeper × IsOf table worker }
    requires scene { IsScene table }
    requires keeper { IsKeeper keeper 1 × HasJoined keeper 0 }
    requires number { worker.number ≡ 0 }
{
    let keeper = table.join_runner(keeper, worker);
    table.close(keeper)
}
