//! Two workers on a hash table of one bucket, from a plan to the contents.
ghost use Rattle.std.specs.Prelude.{◌≡◌, ◌<◌, ◌≤◌, true, IfOk};
ghost use Rattle.std.specs.FinMap.{entries};
ghost use Rattle.machine_states.specs.map_history.specs.Keys.{key_of};
ghost use Rattle.machine_states.specs.map_history.specs.Replay.{Pairs};
ghost use Rattle.leaf_tree.specs.tree_laws.specs.bucket_laws.specs.Buckets.{buckets_meaning};
ghost use Rattle.leaf_tree.specs.tree_laws.specs.bucket_laws.specs.Walk.{has_one_key};
ghost use Rattle.settled_tables.specs.closed_words.specs.version_words.specs.TableState.{IsOf};
ghost use Rattle.settled_tables.specs.closed_words.specs.version_words.specs.Stages.{IsKeeper, HasJoined};
ghost use Rattle.hash_table.specs.try_lock.specs.declared.section.Section.{Section};
ghost use Rattle.hash_table.specs.try_lock.specs.Contents.{StandFor};
ghost use Rattle.lock_tests.specs.Workers.{IsReady, MayRun};
ghost use Rattle.lock_tests.specs.declared.offers.Offer.TheVariants.{Published};
ghost use Rattle.lock_tests.specs.HashScene.{IsScene, asked};

use crate::offers::Offer;
use crate::workers::{Crew, make_crew};
use crate::{closing, courses};
use hash_table::HashTable;
use hash_table::lock_walks::version_words::{FlockTable, Runner, Words};
use machine_states::map_history::{Op, Request};
use machine_states::table_words::Layout;
use std::alloc::{AllocError, Global};

/// The request of the worker with this number, where these are the operations of both.
fn request_of(number: u32, ops: (Op, Op)) -> Request
    ensures { result ≡ asked ops.0 ops.1 number }
{
    if number == 0 {
        Request {
            trace: 0,
            number: 0,
            op: ops.0,
        }
    } else {
        Request {
            trace: 1,
            number: 1,
            op: ops.1,
        }
    }
}

/// A table of one bucket with two workers, and one request for each.
fn new_table(
    alloc: Global,
    ops: (Op, Op),
) -> Result<(FlockTable<HashTable>, Runner<HashTable>), AllocError>
    requires keys { (key_of ops.0 ≤ 4294967293) × (key_of ops.1 ≤ 4294967293) }
    requires one_key { (has_one_key ops.0 ≡ true) × (has_one_key ops.1 ≡ true) }
    ensures own { IfOk result (λ x. IsOf x.0 x.1) }
    ensures keeper { IfOk result (λ x. IsKeeper x.1 0 × HasJoined x.1 0) }
    ensures scene { IfOk result (λ x. IsScene ops.0 ops.1 x.0) }
{
    let layout = Layout {
        runners: 2,
        nodes: 2,
        sections: 1,
        version_max: 4294967295,
    };
    let requests = [
        Request {
            trace: 0,
            number: 0,
            op: ops.0,
        },
        Request {
            trace: 1,
            number: 1,
            op: ops.1,
        },
    ];
    let (table, keeper) = FlockTable::new(alloc, HashTable::new(0), layout, &requests)?;
    Ok((table, keeper))
}

/// Such a table with its workers.
pub fn new_crew(alloc: Global, ops: (Op, Op)) -> Result<Crew<HashTable>, AllocError>
    requires keys { (key_of ops.0 ≤ 4294967293) × (key_of ops.1 ≤ 4294967293) }
    requires one_key { (has_one_key ops.0 ≡ true) × (has_one_key ops.1 ≡ true) }
    ensures scene { IfOk result (λ crew. IsScene ops.0 ops.1 crew.table) }
    ensures workers { IfOk result (λ crew. IsReady 0 crew.first × IsReady 1 crew.second) }
{
    let (table, keeper) = new_table(alloc, ops)?;
    make_crew(alloc, table, keeper)
}

/// Enters, plans the worker's request, and publishes its section, with the number of loads of the plan. No offer is
/// made where the plan is refused.
pub fn plan_and_publish(
    table: &FlockTable<HashTable>,
    runner: Runner<HashTable>,
    ops: (Op, Op),
) -> (Runner<HashTable>, Offer, u64)
    requires own { IsOf table.now runner }
    requires scene { IsScene ops.0 ops.1 table.now }
    requires ready { IsReady runner.number runner }
    requires worker { runner.number < 2 }
    requires one_key { (has_one_key ops.0 ≡ true) × (has_one_key ops.1 ≡ true) }
    ensures own { IsOf table.now result.0 }
    ensures number { result.0.number ≡ runner.number }
    ensures published { (section : Section) → result.1 ≡ Published section
        → MayRun (buckets_meaning table.now.structure.bits) section result.0 }
{
    let request = request_of(runner.number(), ops);
    courses::plan_and_publish(table, runner, &request)
}

/// The pairs of such a closed table, where its lock is free.
pub fn pairs_of(alloc: Global, words: &Words<HashTable>) -> Result<Vec<(u32, u32)>, AllocError>
    requires one { words.now.structure.bits ≡ 0 }
    requires two { words.now.layout.runners ≡ 2 }
    requires nodes { words.now.layout.nodes ≡ 2 }
    ensures { IfOk result (λ items. (pairs : Pairs)
        → StandFor (buckets_meaning words.now.structure.bits) words.now pairs → items.items ≡ entries pairs) }
{
    closing::pairs_of(alloc, words, 53)
}
