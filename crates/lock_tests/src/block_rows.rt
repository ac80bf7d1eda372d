//! Two workers that run one removal from the search tree side by side, each of which links a block.
ghost use Rattle.settled_tables.specs.closed_words.specs.version_words.specs.TableState.{IsOf};
ghost use Rattle.lock_tests.specs.AttemptScene.{IsScene, IsFresh};

use crate::attempt_rows::two_workers;
use crate::attempt_scene::{added, asked, taken};
use crate::scripts::scripted;
use crate::texts::check;
use hash_table::lock_walks::Planner;
use hash_table::lock_walks::version_words::{FlockTable, Runner};
use leaf_tree::LeafTree;
use lock_attempts::attempts::{Attempt, attempt};
use machine_states::body_terms::{StepKind, Steps};
use machine_states::map_history::Reply;
use settled_tables::settling::runner_gate::{Free, Gate};
use std::alloc::{AllocError, Global};
use std::thread;
use std::thread::Threads;

/// How many of a worker's blocks are free, and how many in limbo.
type Blocks = (usize, u32);

fn blocks_of<S: Planner>(runner: &Runner<S>) -> Blocks {
    (runner.free_blocks().len(), runner.limbo_blocks())
}

/// What an attempt was told, where it is answered.
fn told(attempt: Attempt) -> Option<Reply> {
    match attempt {
        Attempt::Done { reply, stamp: _ } => Some(reply),
        _ => None,
    }
}

/// The first worker adds the pair, and then attempts once to take it out, by this gate. What the last of its attempts
/// answers, and its blocks then.
fn take_out<S: Planner, G: Gate>(
    table: &FlockTable<S>,
    runner: Runner<S>,
    gate: &mut G,
) -> (Attempt, Blocks)
    requires own { IsOf table.now runner }
    requires scene { IsScene (S.planning table.now.structure) table.now }
    requires fresh { IsFresh 0 runner }
{
    let mut steps = Steps::<()>::new();
    let request = added();
    let (runner, first) = attempt(table, runner, &request, &mut Free::new(), &mut steps);
    match first {
        Attempt::Done { reply: _, stamp: _ } => {
            let (after, last) = attempt(table, runner, &taken(), gate, &mut steps);
            (last, blocks_of(&after))
        }
        _ => (first, blocks_of(&runner)),
    }
}

/// The second worker asks for the key, and once more where a lock was held. What its last attempt answers, and its
/// blocks then.
fn ask_on<S: Planner, G: Gate>(
    table: &FlockTable<S>,
    runner: Runner<S>,
    gate: &mut G,
) -> (Attempt, Blocks)
    requires own { IsOf table.now runner }
    requires scene { IsScene (S.planning table.now.structure) table.now }
    requires fresh { IsFresh 1 runner }
{
    let mut steps = Steps::<()>::new();
    let request = asked();
    let (runner, first) = attempt(table, runner, &request, gate, &mut steps);
    match first {
        Attempt::Busy { place: _, word: _ } => {
            let (after, last) = attempt(table, runner, &request, gate, &mut steps);
            (last, blocks_of(&after))
        }
        _ => (first, blocks_of(&runner)),
    }
}

/// Both workers at it, each on a thread and with its gate.
fn side_by_side<R: Threads + Sync, S: Planner, G: Gate + Send + Drop>(
    rt: &R,
    table: &FlockTable<S>,
    first: (Runner<S>, G),
    second: (Runner<S>, G),
) -> ((Attempt, Blocks), (Attempt, Blocks))
where
    S::Walk: Send + Sync,
    requires own { IsOf table.now first.0 × IsOf table.now second.0 }
    requires scene { IsScene (S.planning table.now.structure) table.now }
    requires fresh { IsFresh 0 first.0 × IsFresh 1 second.0 }
{
    let (first, mut gate) = first;
    let (second, mut other) = second;
    thread::join(
        rt,
        || -> (Attempt, Blocks)
            requires { IsOf table.now first × IsScene (S.planning table.now.structure) table.now × IsFresh 0 first }
        { take_out(table, first, &mut gate) },
        || -> (Attempt, Blocks)
            requires { IsOf table.now second × IsScene (S.planning table.now.structure) table.now × IsFresh 1 second }
        { ask_on(table, second, &mut other) },
    )
}

/// What both are told by this script, and their blocks in the end.
fn shown<R: Threads + Sync>(
    rt: &R,
    alloc: Global,
    lines: &[(u32, StepKind, u32, StepKind)],
) -> Result<String, AllocError> {
    let (gate, other) = scripted(alloc, lines)?;
    let (table, first, second) = two_workers(alloc, LeafTree::new())?;
    let (one, two) = side_by_side(rt, &table, (first, gate), (second, other));
    let (taken, asked) = (told(one.0), told(two.0));
    let (own, others) = (one.1, two.1);
    format!(in alloc; "{taken:?} {own:?}\n{asked:?} {others:?}")
}

#[test]
fn a_helper_that_links_its_block_first_keeps_it(rt: HostRuntime) -> Result<(), AllocError> {
    // The second worker finds the parent's lock held, and runs the removal to its end while the first one waits inside.
    let lines = [
        (1, StepKind::Entered, 0, StepKind::NestedHold),
        (0, StepKind::NestedHold, 1, StepKind::Release),
    ];
    let row = shown(&rt, rt.alloc(), &lines);
    let told = ["Some(Gone) (24, 0)", "Some(Absent) (23, 1)"];
    check(&rt, rt.alloc(), row, &told)
}

#[test]
fn a_helper_that_comes_late_has_its_block_back(rt: HostRuntime) -> Result<(), AllocError> {
    // The second worker has begun to run the removal, and waits until the first one is through.
    let lines = [
        (1, StepKind::Entered, 0, StepKind::NestedHold),
        (0, StepKind::NestedHold, 1, StepKind::Opening),
        (1, StepKind::Opening, 0, StepKind::Release),
    ];
    let row = shown(&rt, rt.alloc(), &lines);
    let told = ["Some(Gone) (23, 1)", "Some(Absent) (24, 0)"];
    check(&rt, rt.alloc(), row, &told)
}
