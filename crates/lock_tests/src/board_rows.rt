//! Tests of a worker that adds pairs and one that takes them out.
ghost use Rattle.std.specs.Prelude.{◌≡◌, ◌+◌, IfErr, IfOk, IfSome, Some, slice_get};
ghost use Rattle.settled_tables.specs.closed_words.specs.version_words.specs.TableState.{IsOf};
ghost use Rattle.machine_states.specs.map_history.specs.Requests.{AreInOrder};
ghost use Rattle.lock_tests.specs.Sharing.{HasServedOwn};
ghost use Rattle.lock_tests.specs.Workers.{IsNewWorker};

use crate::lone_scene::trace_of;
use crate::texts::check;
use crate::workers::{Crew, make_crew};
use hash_table::HashTable;
use hash_table::lock_walks::Planner;
use hash_table::lock_walks::epoch_slots::Short;
use hash_table::lock_walks::version_words::{FlockTable, Runner};
use lock_attempts::attempts::{Attempt, attempt};
use machine_states::body_terms::Steps;
use machine_states::map_history::{Reply, Request};
use machine_states::table_words::Layout;
use settled_tables::settling::runner_gate::Free;
use std::alloc::{AllocError, Global};

/// One attempt of this request, where it is the worker's own: its reply, or which slots were too few; nothing where it
/// is another worker's. None where the attempt came to another answer.
fn visit<S: Planner>(
    table: &FlockTable<S>,
    runner: Runner<S>,
    request: &Request,
) -> Option<(Runner<S>, Result<Option<Reply>, Short>)>
    requires own { IsOf table.now runner }
    requires two { table.now.layout.runners ≡ 2 }
    requires there { slice_get table.now.requests request.now.number ≡ Some request.now }
    requires before { HasServedOwn request.now.number runner }
    ensures own { IfSome result (λ x. IsOf table.now x.0) }
    ensures number { IfSome result (λ x. x.0.number ≡ runner.number) }
    ensures served { IfSome result (λ x. IfOk x.1 (λ _. HasServedOwn (request.now.number + 1) x.0)) }
    ensures lacks { IfSome result (λ x. IfErr x.1 (λ _. HasServedOwn request.now.number x.0)) }
{
    if request.trace % 2 != runner.number() {
        return Some((runner, Ok(None)));
    }
    if !table.structure().serves(request.op) {
        return None;
    }
    let mut steps = Steps::<()>::new();
    let (runner, answer) = attempt(table, runner, request, &mut Free::new(), &mut steps);
    match answer {
        Attempt::Done { reply, stamp: _ } => Some((runner, Ok(Some(reply)))),
        Attempt::Short(short) => Some((runner, Err(short))),
        _ => None,
    }
}

/// Attempts the worker's own requests from this number on, each once, up to the first that lacks slots. With the last
/// reply, and the number of the request that lacks slots with which ones. None where one came to another answer.
fn attempt_in_turn<S: Planner>(
    table: &FlockTable<S>,
    runner: Runner<S>,
    requests: &[Request],
    from: u32,
) -> Option<(Runner<S>, Option<Reply>, Option<(u32, Short)>)>
    requires own { IsOf table.now runner }
    requires two { table.now.layout.runners ≡ 2 }
    requires all { requests.now ≡ table.now.requests }
    requires before { HasServedOwn from runner }
    ensures own { IfSome result (λ x. IsOf table.now x.0) }
    ensures number { IfSome result (λ x. x.0.number ≡ runner.number) }
    ensures before { IfSome result (λ x. IfSome x.2 (λ told. HasServedOwn told.0 x.0)) }
{
    let mut runner = runner;
    let mut last = None;
    for number in from as usize..requests.len() {
        let request = &requests[number];
        let visited = visit(table, runner, request);
        let Some((next, told)) = visited else {
            return None;
        };
        match told {
            Ok(reply) => {
                runner = next;
                last = reply.or(last);
            }
            Err(short) => return Some((next, last, Some((request.number, short)))),
        }
    }
    Some((runner, last, None))
}

/// The first worker's requests up to one that lacks slots, the second one's, and then the first one's others: which
/// slots were too few, and the last reply. None where it came otherwise.
fn by_turns<S: Planner>(
    table: &FlockTable<S>,
    first: Runner<S>,
    second: Runner<S>,
    requests: &[Request],
) -> Option<(Short, Option<Reply>)>
    requires own { IsOf table.now first × IsOf table.now second }
    requires two { table.now.layout.runners ≡ 2 }
    requires all { requests.now ≡ table.now.requests }
    requires before { HasServedOwn 0 first × HasServedOwn 0 second }
{
    let begun = attempt_in_turn(table, first, requests, 0);
    let Some((first, _, lacking)) = begun else {
        return None;
    };
    let Some((number, short)) = lacking else {
        return None;
    };
    let served = attempt_in_turn(table, second, requests, 0);
    let Some((_, _, None)) = served else {
        return None;
    };
    let ended = attempt_in_turn(table, first, requests, number);
    let Some((_, last, None)) = ended else {
        return None;
    };
    Some((short, last))
}

/// The first worker adds three pairs, and the second one takes two of them out and asks four times for another key.
const LINES: &str = "ins 1 1\nins 2 2\nins 3 3\ntrace\ndel 1\ndel 2\nget 9\nget 9\nget 9\nget 9\n";

/// A hash table of 64 buckets with these requests, and its two workers, each with three node slots.
fn open(alloc: Global, requests: &[Request]) -> Result<Crew<HashTable>, AllocError>
    requires { AreInOrder requests.now 64 }
    ensures requests { IfOk result (λ crew. crew.table.requests ≡ requests.now) }
    ensures workers { IfOk result (λ crew. IsNewWorker 0 crew.first × IsNewWorker 1 crew.second) }
{
    let layout = Layout {
        runners: 2,
        nodes: 3,
        sections: 64,
        version_max: 4294967295,
    };
    let (table, keeper) = FlockTable::new(alloc, HashTable::new(6), layout, requests)?;
    make_crew(alloc, table, keeper)
}

/// What comes of these lines.
fn shared(alloc: Global) -> Result<String, AllocError> {
    let traces = trace_of(alloc, LINES)?;
    let requests = traces.requests.as_slice();
    let crew = open(alloc, requests)?;
    let Crew {
        table,
        keeper,
        first,
        second,
    } = crew;
    drop(keeper);
    let told = by_turns(&table, first, second, requests);
    format!(in alloc; "{told:?}")
}

#[test]
fn who_only_adds_draws_what_another_took_out(rt: HostRuntime) -> Result<(), AllocError> {
    let told = "Some((Short { kind: Node, free: 1, limbo: 0, worn: 0, board: 0 }, Some(New)))";
    check(&rt, rt.alloc(), shared(rt.alloc()), &[told])
}
