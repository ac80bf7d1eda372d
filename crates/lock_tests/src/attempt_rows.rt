//! Tests.
ghost use Rattle.std.specs.Prelude.{IfOk};
ghost use Rattle.settled_tables.specs.closed_words.specs.version_words.specs.TableState.{IsOf};
ghost use Rattle.lock_tests.specs.AttemptScene.{IsScene, IsFresh, ServesThem};

use crate::attempt_scene::{add_once, ask_twice, new_table, split, take_once};
use hash_table::HashTable;
use hash_table::lock_walks::Planner;
use hash_table::lock_walks::version_words::{FlockTable, Runner};
use leaf_tree::LeafTree;
use lock_attempts::attempts::Attempt;
use machine_states::body_terms::StepKind;
use machine_states::map_history::Reply;
use settled_tables::settling::runner_gate::{Free, Gates, HaltAt, Pause, Scripted, ScriptedGates};
use std::alloc::{AllocError, Global};
use std::thread;
use std::thread::Threads;

/// A new table of this structure with its two workers.
pub fn two_workers<S: Planner>(
    alloc: Global,
    structure: S,
) -> Result<(FlockTable<S>, Runner<S>, Runner<S>), AllocError>
    requires { ServesThem (S.planning structure) }
    ensures own { IfOk result (λ x. IsOf x.0 x.1 × IsOf x.0 x.2) }
    ensures scene { IfOk result (λ x. IsScene (S.planning x.0.structure) x.0) }
    ensures fresh { IfOk result (λ x. IsFresh 0 x.1 × IsFresh 1 x.2) }
{
    let (table, keeper) = new_table(alloc, structure)?;
    let (keeper, first) = split(&table, alloc, keeper, 0)?;
    let (keeper, second) = split(&table, alloc, keeper, 1)?;
    drop(keeper);
    Ok((table, first, second))
}

/// Gates of a script in which the first worker waits inside its section, behind its publication, until the second one
/// has published its own; and the second one, as it enters, until the first one has published.
fn one_waits_inside(alloc: Global) -> Result<ScriptedGates, AllocError> {
    let mut pauses = Vec::new(alloc);
    pauses.push(Pause {
        runner: 0,
        at: StepKind::Hold,
        until_runner: 1,
        until: StepKind::Hold,
    })?;
    pauses.push(Pause {
        runner: 1,
        at: StepKind::Entered,
        until_runner: 0,
        until: StepKind::Hold,
    })?;
    ScriptedGates::new(alloc, pauses)
}

/// Both workers attempt their requests, each on a thread, by gates of this script: the first one adds the pair, the
/// second one asks.
fn side_by_side<R: Threads + Sync, S: Planner>(
    rt: &R,
    table: &FlockTable<S>,
    first: Runner<S>,
    second: Runner<S>,
    gates: &mut ScriptedGates,
) -> (Attempt, (bool, Attempt))
where
    S::Walk: Send + Sync,
    requires own { IsOf table.now first × IsOf table.now second }
    requires scene { IsScene (S.planning table.now.structure) table.now }
    requires fresh { IsFresh 0 first × IsFresh 1 second }
{
    let mut first_gate: Scripted = gates.gate(0, None);
    let mut second_gate: Scripted = gates.gate(1, None);
    thread::join(
        rt,
        || -> Attempt
            requires { IsOf table.now first × IsScene (S.planning table.now.structure) table.now × IsFresh 0 first }
        { add_once(table, first, &mut first_gate) },
        || -> (bool, Attempt)
            requires { IsOf table.now second × IsScene (S.planning table.now.structure) table.now × IsFresh 1 second }
        { ask_twice(table, second, &mut second_gate) },
    )
}

/// Whether, by that script, the second worker meets the lock held, finishes the first one's section, tries again and is
/// told its value; and the first one is told that it added the pair, with the lower stamp.
fn one_finishes_both<R: Threads + Sync, S: Planner>(
    rt: &R,
    alloc: Global,
    structure: S,
) -> Result<bool, AllocError>
where
    S::Walk: Send + Sync,
    requires { ServesThem (S.planning structure) }
{
    let mut gates = one_waits_inside(alloc)?;
    let (table, first, second) = two_workers(alloc, structure)?;
    let (added, (busy, asked)) = side_by_side(rt, &table, first, second, &mut gates);
    match (added, asked) {
        (
            Attempt::Done {
                reply: new,
                stamp: one,
            },
            Attempt::Done {
                reply: val,
                stamp: two,
            },
        ) => Ok(busy && new == Reply::New && val == Reply::Val(70) && one < two),
        _ => Ok(false),
    }
}

#[test]
fn one_waits_inside_its_section_and_the_other_finishes_both(
    rt: HostRuntime,
) -> Result<(), AllocError> {
    assert!(&rt; one_finishes_both(&rt, rt.alloc(), HashTable::new(0))?);
    assert!(&rt; one_finishes_both(&rt, rt.alloc(), LeafTree::new())?);
    Ok(())
}

/// In which of its requests the first worker is stopped.
#[derive(Clone, Copy, Debug, PartialEq, Eq)]
enum Stopped {
    Insertion,
    Removal,
}

/// What the second worker is told where the first one was stopped at its ask with this number; None where it wasn't
/// stopped, or the second one isn't answered.
fn told_behind<S: Planner>(
    alloc: Global,
    structure: S,
    stopped: Stopped,
    ask: u64,
) -> Result<Option<Reply>, AllocError>
    requires { ServesThem (S.planning structure) }
{
    let (table, first, second) = two_workers(alloc, structure)?;
    let mut gate = HaltAt::new(Some(ask));
    let last = match stopped {
        Stopped::Insertion => add_once(&table, first, &mut gate),
        Stopped::Removal => take_once(&table, first, &mut gate),
    };
    let (_, asked) = ask_twice(&table, second, &mut Free::new());
    match (last, asked) {
        (Attempt::Halted, Attempt::Done { reply, stamp: _ }) => Ok(Some(reply)),
        _ => Ok(None),
    }
}

/// A request with two numbers of asks: the last at which it is not yet in the way of others, and its last.
const ON_HASH: [(Stopped, u64, u64); 2] = [(Stopped::Insertion, 4, 41), (Stopped::Removal, 7, 35)];

const ON_TREE: [(Stopped, u64, u64); 2] = [(Stopped::Insertion, 6, 53), (Stopped::Removal, 30, 61)];

/// What is told behind a stop where the request has no effect, or has it.
fn told_by(stopped: Stopped, has_effect: bool) -> Reply {
    if (stopped == Stopped::Insertion) == has_effect {
        Reply::Val(70)
    } else {
        Reply::Absent
    }
}

#[test]
fn whoever_comes_after_a_stop_on_the_hash_table_is_answered(
    rt: HostRuntime,
) -> Result<(), AllocError> {
    for (stopped, before, last) in ON_HASH {
        for ask in 1..=last {
            let told = told_behind(rt.alloc(), HashTable::new(0), stopped, ask)?;
            assert!(&rt; told == Some(told_by(stopped, before < ask)), "at {ask}");
        }
        let told = told_behind(rt.alloc(), HashTable::new(0), stopped, last + 1)?;
        assert!(&rt; told.is_none());
    }
    Ok(())
}

#[test]
fn whoever_comes_after_a_stop_on_the_tree_is_answered(rt: HostRuntime) -> Result<(), AllocError> {
    for (stopped, before, last) in ON_TREE {
        for ask in 1..=last {
            let told = told_behind(rt.alloc(), LeafTree::new(), stopped, ask)?;
            assert!(&rt; told == Some(told_by(stopped, before < ask)), "at {ask}");
        }
        let told = told_behind(rt.alloc(), LeafTree::new(), stopped, last + 1)?;
        assert!(&rt; told.is_none());
    }
    Ok(())
}
