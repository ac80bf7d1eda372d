//! Two workers, and their requests.
ghost use Rattle.std.specs.Prelude.{◌≡◌, ◌+◌, ◌<◌, IfOk};
ghost use Rattle.machine_states.specs.map_history.specs.declared.op.Op.TheVariants.{Get, Ins, Del};
ghost use Rattle.settled_tables.specs.closed_words.specs.version_words.specs.TableState.{IsOf};
ghost use Rattle.settled_tables.specs.closed_words.specs.version_words.specs.Stages.{IsKeeper};
ghost use Rattle.lock_tests.specs.AttemptScene.{IsScene, IsFresh, ServesThem};

use hash_table::lock_walks::Planner;
use hash_table::lock_walks::version_words::{FlockTable, Runner};
use lock_attempts::attempts::{Attempt, attempt};
use machine_states::body_terms::Steps;
use machine_states::map_history::{Op, Request};
use machine_states::table_words::Layout;
use settled_tables::settling::runner_gate::{Free, Gate};
use std::alloc::{AllocError, Global};

/// The first worker's first request: it adds a pair.
pub fn added() -> Request
    ensures { result ≡ record { trace = 0; number = 0; op = Ins 5 70 } }
{
    Request {
        trace: 0,
        number: 0,
        op: Op::Ins(5, 70),
    }
}

/// The first worker's second request: it takes the pair out.
pub fn taken() -> Request
    ensures { result ≡ record { trace = 0; number = 1; op = Del 5 } }
{
    Request {
        trace: 0,
        number: 1,
        op: Op::Del(5),
    }
}

/// The second worker's request: it asks for the key.
pub fn asked() -> Request
    ensures { result ≡ record { trace = 1; number = 2; op = Get 5 } }
{
    Request {
        trace: 1,
        number: 2,
        op: Op::Get(5),
    }
}

/// A table of this structure, which serves the requests, with two workers and their requests.
pub fn new_table<S: Planner>(
    alloc: Global,
    structure: S,
) -> Result<(FlockTable<S>, Runner<S>), AllocError>
    requires { ServesThem (S.planning structure) }
    ensures own { IfOk result (λ x. IsOf x.0 x.1) }
    ensures keeper { IfOk result (λ x. IsKeeper x.1 0) }
    ensures scene { IfOk result (λ x. IsScene (S.planning x.0.structure) x.0) }
{
    let layout = Layout {
        runners: 2,
        nodes: 6,
        sections: 2,
        version_max: 4294967295,
    };
    let requests = [added(), taken(), asked()];
    let (table, keeper) = FlockTable::new(alloc, structure, layout, &requests)?;
    Ok((table, keeper))
}

/// The keeper, and the next worker.
pub fn split<S: Planner>(
    table: &FlockTable<S>,
    alloc: Global,
    keeper: Runner<S>,
    number: u32,
) -> Result<(Runner<S>, Runner<S>), AllocError>
    requires own { IsOf table.now keeper }
    requires scene { IsScene (S.planning table.now.structure) table.now }
    requires keeper { IsKeeper keeper number }
    requires few { number < 2 }
    ensures own { IfOk result (λ x. IsOf table.now x.0 × IsOf table.now x.1) }
    ensures keeper { IfOk result (λ x. IsKeeper x.0 (number + 1)) }
    ensures worker { IfOk result (λ x. IsFresh number x.1) }
{
    match table.runner(alloc, keeper) {
        Ok((keeper, worker)) => Ok((keeper, worker)),
        Err((_, error)) => Err(error),
    }
}

/// The first worker attempts to add the pair once. What it answers.
pub fn add_once<S: Planner, G: Gate>(
    table: &FlockTable<S>,
    runner: Runner<S>,
    gate: &mut G,
) -> Attempt
    requires own { IsOf table.now runner }
    requires scene { IsScene (S.planning table.now.structure) table.now }
    requires fresh { IsFresh 0 runner }
{
    let mut steps = Steps::<()>::new();
    attempt(table, runner, &added(), gate, &mut steps).1
}

/// The first worker adds the pair, and then attempts once to take it out, by this gate. What the last of its attempts
/// answers.
pub fn take_once<S: Planner, G: Gate>(
    table: &FlockTable<S>,
    runner: Runner<S>,
    gate: &mut G,
) -> Attempt
    requires own { IsOf table.now runner }
    requires scene { IsScene (S.planning table.now.structure) table.now }
    requires fresh { IsFresh 0 runner }
{
    let mut steps = Steps::<()>::new();
    let request = added();
    let (runner, first) = attempt(table, runner, &request, &mut Free::new(), &mut steps);
    match first {
        Attempt::Done { reply: _, stamp: _ } => {
            attempt(table, runner, &taken(), gate, &mut steps).1
        }
        _ => first,
    }
}

/// The second worker asks for the key, and once more where a lock was held. Whether one was, and what its last attempt
/// answers.
pub fn ask_twice<S: Planner, G: Gate>(
    table: &FlockTable<S>,
    runner: Runner<S>,
    gate: &mut G,
) -> (bool, Attempt)
    requires own { IsOf table.now runner }
    requires scene { IsScene (S.planning table.now.structure) table.now }
    requires fresh { IsFresh 1 runner }
{
    let mut steps = Steps::<()>::new();
    let request = asked();
    let (runner, first) = attempt(table, runner, &request, gate, &mut steps);
    match first {
        Attempt::Busy { place: _, word: _ } => {
            let (_, last) = attempt(table, runner, &request, gate, &mut steps);
            (true, last)
        }
        _ => (false, first),
    }
}
