//! Tests on the hash table.
ghost use Rattle.std.specs.Prelude.{◌≡◌, ◌<◌, ◌≤◌, true, IfOk};
ghost use Rattle.leaf_tree.specs.tree_laws.specs.bucket_laws.specs.Buckets.{buckets_meaning};
ghost use Rattle.leaf_tree.specs.tree_laws.specs.bucket_laws.specs.Walk.{has_one_key};
ghost use Rattle.machine_states.specs.map_history.specs.Keys.{key_of};
ghost use Rattle.machine_states.specs.map_history.specs.declared.op.Op.TheVariants.{Get};
ghost use Rattle.settled_tables.specs.closed_words.specs.version_words.specs.TableState.{IsOf};
ghost use Rattle.lock_tests.specs.HashScene.{IsScene};
ghost use Rattle.lock_tests.specs.Workers.{IsReady, MayMeet};

use crate::hash_scene::{new_crew, pairs_of, plan_and_publish};
use crate::offers::Offer;
use crate::scripts::scripted;
use crate::texts::check;
use crate::turns::{Turn, run_own};
use crate::watched::{Ended, Watched, watch_section};
use crate::workers::Crew;
use hash_table::HashTable;
use hash_table::lock_walks::section_runs::RunEnd;
use hash_table::lock_walks::version_words::{FlockTable, Runner};
use machine_states::body_terms::StepKind;
use machine_states::map_history::Op;
use settled_tables::settling::runner_gate::Free;
use std::alloc::{AllocError, Global};
use std::thread::Threads;

/// The first worker plans its request and publishes the section, and then the second one watches the held lock. With
/// the number of loads of the plan.
fn watched(alloc: Global, op: Op) -> Result<(Watched<HashTable>, u64), AllocError>
    requires keys { key_of op ≤ 4294967293 }
    requires one_key { has_one_key op ≡ true }
    ensures scene { IfOk result (λ x. IsScene op (Get 1) x.0.crew.table) }
    ensures meet { IfOk result (λ x. MayMeet (buckets_meaning x.0.crew.table.structure.bits) x.0.section x.0.held
        x.0.crew.first x.0.crew.second) }
{
    let ops = (op, Op::Get(1));
    let Crew {
        table,
        keeper,
        first,
        second,
    } = new_crew(alloc, ops)?;
    let (first, offered, loads) = plan_and_publish(&table, first, ops);
    let crew = Crew {
        table,
        keeper,
        first,
        second,
    };
    let watched = watch_section(crew, offered)?;
    Ok((watched, loads))
}

/// After that both are at the section, each on a thread and with its gate. The loads of the plan, how both runs went,
/// and the pairs after them, each on a line.
fn helped<R: Threads + Sync>(
    rt: &R,
    alloc: Global,
    op: Op,
    lines: &[(u32, StepKind, u32, StepKind)],
) -> Result<String, AllocError>
    requires keys { key_of op ≤ 4294967293 }
    requires one_key { has_one_key op ≡ true }
{
    let gates = scripted(alloc, lines)?;
    let (watched, loads) = watched(alloc, op)?;
    let Ended { crew, ran, helped } = watched.on_threads(rt, gates);
    let (ran, helped) = (ran.shown(alloc), helped.shown(alloc));
    let pairs = pairs_of(alloc, &crew.gather());
    let (ran, helped, pairs) = (ran?, helped?, pairs?);
    format!(in alloc; "{loads:?} loads\n{ran}\n{helped}\n{pairs:?}")
}

#[test]
fn a_get_is_answered_in_21_steps_and_helped_too_late(rt: HostRuntime) -> Result<(), AllocError> {
    let lines = [
        (1, StepKind::Opening, 0, StepKind::Release),
        (0, StepKind::Release, 1, StepKind::Release),
    ];
    let ran = "21 Answered(21474836480) [4294967296]";
    let late = "21 Answered(21474836480) [4294967296], late";
    let row = helped(&rt, rt.alloc(), Op::Get(1), &lines);
    check(&rt, rt.alloc(), row, &["3 loads", ran, late, "[]"])
}

#[test]
fn a_worker_that_waits_in_its_section_is_helped_to_the_end(
    rt: HostRuntime,
) -> Result<(), AllocError> {
    let lines = [
        (1, StepKind::Opening, 0, StepKind::Private),
        (0, StepKind::Private, 1, StepKind::Release),
    ];
    let row = helped(&rt, rt.alloc(), Op::Ins(5, 70), &lines);
    let ran = "36 Answered(4294967296) [4294967296, 4294967296, 3]";
    check(&rt, rt.alloc(), row, &["3 loads", ran, ran, "[(5, 70)]"])
}

/// The worker plans its request, publishes the section and runs it. How the run went, and how many loads the plan made.
/// Where it can't publish it makes no step.
fn serve(
    table: &FlockTable<HashTable>,
    runner: Runner<HashTable>,
    ops: (Op, Op),
) -> (Runner<HashTable>, Turn, u64)
    requires own { IsOf table.now runner }
    requires scene { IsScene ops.0 ops.1 table.now }
    requires ready { IsReady runner.number runner }
    requires worker { runner.number < 2 }
    requires one_key { (has_one_key ops.0 ≡ true) × (has_one_key ops.1 ≡ true) }
    ensures own { IsOf table.now result.0 }
    ensures number { result.0.number ≡ runner.number }
{
    let (runner, offered, loads) = plan_and_publish(table, runner, ops);
    let Offer::Published(section) = offered else {
        let turn = Turn {
            end: RunEnd::Halted,
            steps: 0,
        };
        return (runner, turn, loads);
    };
    let (runner, turn) = run_own(table, runner, section, &mut Free::new());
    (runner, turn, loads)
}

/// The first worker's section is run, and then the second one's. The steps of both, the loads of the second one's plan,
/// both requests' entries, and the pairs.
fn in_turn(alloc: Global, ops: (Op, Op)) -> Result<String, AllocError>
    requires keys { (key_of ops.0 ≤ 4294967293) × (key_of ops.1 ≤ 4294967293) }
    requires one_key { (has_one_key ops.0 ≡ true) × (has_one_key ops.1 ≡ true) }
{
    let Crew {
        table,
        keeper,
        first,
        second,
    } = new_crew(alloc, ops)?;
    let (first, one, _) = serve(&table, first, ops);
    let (second, two, loads) = serve(&table, second, ops);
    let crew = Crew {
        table,
        keeper,
        first,
        second,
    };
    let words = crew.gather();
    let pairs = pairs_of(alloc, &words);
    let entries = (words.entry(0), words.entry(1));
    drop(words);
    let (steps, pairs) = ((one.steps, two.steps), pairs?);
    format!(in alloc; "{steps:?}, {loads:?} loads\n{entries:?}\n{pairs:?}")
}

#[test]
fn the_contents_are_in_order_of_key(rt: HostRuntime) -> Result<(), AllocError> {
    let row = in_turn(rt.alloc(), (Op::Ins(3, 30), Op::Ins(5, 50)));
    let entries = "(Some((2, 4294967296)), Some((4, 4294967296)))";
    check(
        &rt,
        rt.alloc(),
        row,
        &["(36, 36), 5 loads", entries, "[(3, 30), (5, 50)]"],
    )
}

#[test]
fn a_put_sets_the_value_of_a_key_that_is_there(rt: HostRuntime) -> Result<(), AllocError> {
    let row = in_turn(rt.alloc(), (Op::Put(5, 70), Op::Put(5, 80)));
    let entries = "(Some((2, 4294967296)), Some((4, 25769803846)))";
    check(
        &rt,
        rt.alloc(),
        row,
        &["(36, 25), 5 loads", entries, "[(5, 80)]"],
    )
}
