//! Rows on the shared table of the test structure, by the steps of `table_steps`, also on two real threads.
ghost use Rattle.std.specs.Prelude.{◌≡◌, ◌<◌, None, length};
ghost use Rattle.machine_states.specs.epoch_core.specs.declared.stage.Stage.TheVariants as stages;
ghost use Rattle.table_steps.specs.version_words.specs.TableState.{IsOf};
ghost use Rattle.table_steps.specs.version_words.specs.Stages.{IsAt};

use interleave_core::Tray;
use std::alloc::{AllocError, Global};
use std::thread;
use std::thread::Threads;
use table_steps::version_words::{FlockTable, Runner, Words};
use table_steps::{
    collect, crew, enter, entry, exit, fetch, gather, look, new_table, put, slot_of,
};

/// A worker's share of work on a thread: it enters and leaves, and scans, so many times.
fn busy(table: &FlockTable<Tray>, runner: Runner<Tray>, times: u32) -> Runner<Tray>
    requires own { IsOf table.now runner }
    requires at { IsAt runner stages.Idle None }
    ensures own { IsOf table.now result }
    ensures at { IsAt result stages.Idle None }
    ensures number { result.number ≡ runner.number }
{
    let mut runner = runner;
    for _ in 0..times {
        let (entered, epoch) = enter(table, runner);
        let (collected, _) = collect(table, exit(table, entered, epoch));
        runner = collected;
    }
    runner
}

/// Both workers' shares, each on a thread of its own.
fn both_busy<R: Threads + Sync>(
    rt: &R,
    table: &FlockTable<Tray>,
    first: Runner<Tray>,
    second: Runner<Tray>,
) -> (Runner<Tray>, Runner<Tray>)
    requires own { IsOf table.now first × IsOf table.now second }
    requires at { IsAt first stages.Idle None × IsAt second stages.Idle None }
    ensures own { IsOf table.now result.0 × IsOf table.now result.1 }
    ensures at { IsAt result.0 stages.Idle None × IsAt result.1 stages.Idle None }
    ensures numbers { (result.0.number ≡ first.number) × (result.1.number ≡ second.number) }
{
    thread::join(
        rt,
        move || -> Runner<Tray>
            requires { IsOf table.now first × IsAt first stages.Idle None }
            ensures { IsOf table.entry.now result × IsAt result stages.Idle None × (result.number ≡ first.number) }
        { busy(table, first, 300) },
        move || -> Runner<Tray>
            requires { IsOf table.now second × IsAt second stages.Idle None }
            ensures { IsOf table.entry.now result × IsAt result stages.Idle None × (result.number ≡ second.number) }
        { busy(table, second, 300) },
    )
}

/// What a runner has, as a text: its number, its free node slots and descriptors, the slots in its hand, how many are
/// worn, and how many node slots and descriptors are in limbo.
fn kept(alloc: Global, runner: &Runner<Tray>) -> Result<String, AllocError> {
    let (nodes, descriptors) = (runner.free_nodes(), runner.free_descriptors());
    let (number, hand, worn) = (runner.number(), runner.hand(), runner.worn());
    let limbo = (runner.limbo_nodes(), runner.limbo_descriptors());
    format!(in alloc; "{number:?}: {nodes:?} {descriptors:?} {hand:?} {worn:?} {limbo:?}")
}

/// What a table is of, as a text: how many node slots its keeper has, and how many workers it has; and its structure.
fn made(
    alloc: Global,
    table: &FlockTable<Tray>,
    keeper: &Runner<Tray>,
) -> Result<String, AllocError> {
    let (slots, workers) = (keeper.free_nodes().len(), table.layout().runners);
    let structure = table.structure();
    format!(in alloc; "{slots:?} {workers:?} {structure:?}")
}

/// What a closed table has, as a text: the entry of its request, the number and the link, and its structure.
fn left(alloc: Global, words: &Words<Tray>) -> Result<String, AllocError>
    requires { 0 < length words.now.requests }
{
    let (entry, structure) = (words.entry(0), words.structure());
    let (number, link) = (words.cell(1).bits(), words.cell(2).bits());
    format!(in alloc; "{entry:?} {number:?} {link:?} {structure:?}")
}

/// Both workers are busy on threads. What each of them and the table then has, and what is left, each on a line.
fn worked<R: Threads + Sync>(rt: &R, alloc: Global) -> Result<String, AllocError> {
    let (table, keeper) = new_table(alloc)?;
    let (keeper, first, second) = crew(&table, alloc, keeper)?;
    let (first, second) = both_busy(rt, &table, first, second);
    let (one, two) = (kept(alloc, &first), kept(alloc, &second));
    let made = made(alloc, &table, &keeper);
    let left = left(alloc, &gather(table, keeper, first, second));
    let (one, two, made, left) = (one?, two?, made?, left?);
    format!(in alloc; "{one}\n{two}\n{made}\n{left}")
}

#[test]
fn two_threads_enter_leave_and_scan(rt: HostRuntime) -> Result<(), AllocError> {
    let row = worked(&rt, rt.alloc())?;
    let shown = "0: [1, 0] [0] [] 0 (0, 0)\n1: [3, 2] [1] [] 0 (0, 0)\n6 2 Tray\n\
        None 4294967296 4294967296 Tray";
    assert!(&rt; row.as_str() == shown, "{row}");
    Ok(())
}

/// A worker loads the number in an entry. The word, and what is left.
fn looked(alloc: Global) -> Result<String, AllocError> {
    let (table, keeper) = new_table(alloc)?;
    let (keeper, first, second) = crew(&table, alloc, keeper)?;
    let (first, epoch) = enter(&table, first);
    let (first, word) = look(&table, first, epoch, 1);
    let first = exit(&table, first, epoch);
    let left = left(alloc, &gather(table, keeper, first, second));
    let (word, left) = (word.bits(), left?);
    format!(in alloc; "{word:?}\n{left}")
}

#[test]
fn an_entered_runner_loads_a_cell(rt: HostRuntime) -> Result<(), AllocError> {
    let row = looked(rt.alloc())?;
    let shown = "4294967296\nNone 4294967296 4294967296 Tray";
    assert!(&rt; row.as_str() == shown, "{row}");
    Ok(())
}

/// Each worker stores into a word of its free descriptor. What is loaded of both and of another word; the request's
/// stamp; and what is left.
fn stored(alloc: Global) -> Result<String, AllocError> {
    let (table, keeper) = new_table(alloc)?;
    let (keeper, first, second) = crew(&table, alloc, keeper)?;
    let (slot, next) = (slot_of(&table, 0), slot_of(&table, 1));
    let first = put(&table, first, 0, slot, 0, 9);
    let second = put(&table, second, 1, next, 20, 5);
    let (first, word) = fetch(&table, first, 0, slot, 0);
    let (second, other) = fetch(&table, second, 1, next, 20);
    let (second, unstored) = fetch(&table, second, 1, next, 12);
    let (first, stamp) = entry(&table, first, 0);
    let left = left(alloc, &gather(table, keeper, first, second));
    let left = left?;
    format!(in alloc; "{word:?} {other:?} {unstored:?}, {stamp:?}\n{left}")
}

#[test]
fn an_idle_worker_stores_into_a_free_descriptor_and_loads_it(
    rt: HostRuntime,
) -> Result<(), AllocError> {
    let row = stored(rt.alloc())?;
    let shown = "9 5 0, 0\nNone 4294967296 4294967296 Tray";
    assert!(&rt; row.as_str() == shown, "{row}");
    Ok(())
}
