//! The serving of a table's first requests, and what was answered.
ghost use Rattle.std.specs.Prelude.{◌≡◌, ◌≤◌, All, IfOk, length, take, true};
ghost use Rattle.table_steps.specs.version_words.specs.TableState.{IsOf};
ghost use Rattle.serving.specs.Serving.{MayServe};
ghost use Rattle.speed.specs.Asked.{requests_of};
ghost use Rattle.speed.specs.Rounds.{IsRound};

use crate::attempt_rounds::kinds::Kind;
use crate::attempt_rounds::requests::requests_of;
use crate::attempt_rounds::scenes::{close, new_table, split};
use crate::attempt_rounds::tables::TableKind;
use hash_table::HashTable;
use hash_table::lock_walks::Planner;
use leaf_tree::LeafTree;
use machine_states::body_terms::Steps;
use machine_states::map_history::Request;
use runner_gate::Free;
use serving::serve;
use std::alloc::{AllocError, Global};
use std::sync::Wait;
use std::thread::Threads;
use table_steps::version_words::{FlockTable, Runner, Words};

/// The hash table has 1,024 buckets.
const BUCKET_BITS: u32 = 10;

/// A table with so many requests of a kind, of which the first ones, so many, are served.
#[derive(Clone, Copy, Debug, PartialEq, Eq)]
pub struct Round {
    pub table: TableKind,
    pub kind: Kind,
    pub count: u32,
    pub served: u32,
}

/// How many of a table's requests were answered, and the sum of their reply words.
#[derive(Clone, Copy, Debug, PartialEq, Eq)]
pub struct Tally {
    pub answered: u32,
    pub sum: u64,
}

/// The first requests of a list, so many.
fn first_of(requests: &[Request], served: u32) -> &[Request]
    requires { served ≤ length requests.now }
    ensures { result.now ≡ take served requests.now }
{
    &requests[..served as usize]
}

/// Serves these requests by a gate that never halts. Where the worker lacks slots it tries again, as long as
/// some of its own are in limbo.
#[inline(never)]
fn serve_all<R: Threads + Wait + Sync, S: Planner>(
    rt: &R,
    table: &FlockTable<S>,
    worker: Runner<S>,
    requests: &[Request],
) -> Runner<S>
    requires own { IsOf table.now worker }
    requires next { MayServe (S.planning table.now.structure) requests.now worker }
    ensures own { IsOf table.now result }
    ensures number { result.number ≡ worker.number }
{
    let mut gate = Free::new();
    let mut steps = Steps::<()>::new();
    let (worker, _) = serve(rt, table, worker, requests, true, &mut gate, &mut steps);
    worker
}

/// What was answered of the first so many requests.
fn add_up<S: Planner>(words: &Words<S>, count: u32) -> Tally
    requires few { count ≤ length words.now.requests }
    ensures few { result.answered ≤ count }
{
    let mut answered = 0;
    let mut sum = 0_u64;
    for request in 0..count {
        if let Some((_, reply)) = words.entry(request) {
            answered += 1;
            sum = sum.wrapping_add(reply);
        }
    }
    Tally { answered, sum }
}

/// Makes a table of this structure with so many requests of this kind, serves the first ones, so many, and
/// closes it.
fn serve_on<R: Threads + Wait + Sync, S: Planner>(
    rt: &R,
    alloc: Global,
    structure: S,
    round: Round,
) -> Result<Tally, AllocError>
    requires within { IsRound round }
    requires serves { All (λ (request : Request). (S.planning structure).serves request.op ≡ true)
        (requests_of round.kind round.count) }
    ensures { IfOk result (λ tally. tally.answered ≤ round.count) }
{
    let requests = requests_of(alloc, round.kind, round.count)?;
    let (table, keeper) = new_table(alloc, structure, &requests)?;
    let (keeper, worker) = split(&table, alloc, keeper)?;
    let worker = serve_all(rt, &table, worker, first_of(&requests, round.served));
    let words = close(table, keeper, worker);
    Ok(add_up(&words, round.count))
}

/// The same on a table of the structure that the round names.
pub fn serve_round<R: Threads + Wait + Sync>(
    rt: &R,
    alloc: Global,
    round: Round,
) -> Result<Tally, AllocError>
    requires within { IsRound round }
    ensures { IfOk result (λ tally. tally.answered ≤ round.count) }
{
    match round.table {
        TableKind::Hash => serve_on(rt, alloc, HashTable::new(BUCKET_BITS), round),
        TableKind::Tree => serve_on(rt, alloc, LeafTree::new(), round),
    }
}
