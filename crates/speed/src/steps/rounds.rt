//! Rounds of one kind of step, on a table of the test structure with two workers.
//!
//! Each kind's loop stands in a function of its own that is given the table, as in a thread. In one function with all
//! that comes before and after, the loops' own counters would go through memory.
ghost use Rattle.std.specs.Prelude.{◌≡◌, ◌<◌, length, None};
ghost use Rattle.machine_states.specs.epoch_core.specs.declared.stage.Stage.TheVariants as stages;
ghost use Rattle.machine_states.specs.table_words.specs.Limits.{IsWithinLimits};
ghost use Rattle.table_steps.specs.version_words.specs.TableState.{IsOf};
ghost use Rattle.table_steps.specs.version_words.specs.Stages.{IsAt, HasFree};

use crate::steps::kinds::Kind;
use interleave_core::Tray;
use machine_states::table_words::DESCRIPTOR_WORDS;
use std::alloc::{AllocError, Global};
use table_steps::version_words::{FlockTable, Runner};
use table_steps::{
    collect, crew, enter, entry, exit, fetch, fetch_word, gather, look, new_table, put, slot_of,
};

/// Loads the stamp word of request 0, so many times, and adds up what was found.
#[inline(never)]
fn load_entries(table: &FlockTable<Tray>, runner: Runner<Tray>, rounds: u32) -> (Runner<Tray>, u64)
    requires own { IsOf table.now runner }
    requires at { IsAt runner stages.Idle None }
    requires one { 0 < length table.now.requests }
    ensures own { IsOf table.now result.0 }
    ensures at { IsAt result.0 stages.Idle None }
    ensures number { result.0.number ≡ runner.number }
{
    let mut runner = runner;
    let mut sum = 0_u64;
    for _ in 0..rounds {
        let (loaded, found) = entry(table, runner, 0);
        runner = loaded;
        sum = sum.wrapping_add(found);
    }
    (runner, sum)
}

/// Loads cell 1 in an entry, so many times, and adds up what was found.
#[inline(never)]
fn load_cells(
    table: &FlockTable<Tray>,
    runner: Runner<Tray>,
    epoch: u64,
    rounds: u32,
) -> (Runner<Tray>, u64)
    requires own { IsOf table.now runner }
    requires at { IsAt runner (stages.Entered epoch) None }
    ensures own { IsOf table.now result.0 }
    ensures at { IsAt result.0 (stages.Entered epoch) None }
    ensures number { result.0.number ≡ runner.number }
{
    let mut runner = runner;
    let mut sum = 0_u64;
    for _ in 0..rounds {
        let (loaded, found) = look(table, runner, epoch, 1);
        runner = loaded;
        sum = sum.wrapping_add(found.bits());
    }
    (runner, sum)
}

/// Loads a word of the own free descriptor 0, so many times, and adds up what was found.
#[inline(never)]
fn load_own_words(
    table: &FlockTable<Tray>,
    runner: Runner<Tray>,
    rounds: u32,
) -> (Runner<Tray>, u64)
    requires own { IsOf table.now runner }
    requires limits { IsWithinLimits table.now.layout }
    requires at { IsAt runner stages.Idle None }
    requires free { HasFree runner 0 }
    ensures own { IsOf table.now result.0 }
    ensures at { IsAt result.0 stages.Idle None }
    ensures number { result.0.number ≡ runner.number }
{
    let slot = slot_of(table, 0);
    let mut runner = runner;
    let mut sum = 0_u64;
    for _ in 0..rounds {
        let (loaded, found) = fetch(table, runner, 0, slot, 13);
        runner = loaded;
        sum = sum.wrapping_add(found);
    }
    (runner, sum)
}

/// Stores into a word of the own free descriptor 0, so many times, and adds up what was stored.
#[inline(never)]
fn store_own_words(
    table: &FlockTable<Tray>,
    runner: Runner<Tray>,
    rounds: u32,
) -> (Runner<Tray>, u64)
    requires own { IsOf table.now runner }
    requires limits { IsWithinLimits table.now.layout }
    requires at { IsAt runner stages.Idle None }
    requires free { HasFree runner 0 }
    ensures own { IsOf table.now result.0 }
    ensures at { IsAt result.0 stages.Idle None }
    ensures number { result.0.number ≡ runner.number }
{
    let slot = slot_of(table, 0);
    let mut runner = runner;
    let mut sum = 0_u64;
    for round in 0..rounds {
        runner = put(table, runner, 0, slot, 13, round as u64);
        sum = sum.wrapping_add(round as u64);
    }
    (runner, sum)
}

/// Loads each word of the own free descriptor 0, and counts those that aren't this number.
#[inline(always)]
fn count_others(table: &FlockTable<Tray>, runner: Runner<Tray>, number: u64) -> (Runner<Tray>, u64)
    requires own { IsOf table.now runner }
    requires at { IsAt runner stages.Idle None }
    requires free { HasFree runner 0 }
    ensures own { IsOf table.now result.0 }
    ensures at { IsAt result.0 stages.Idle None }
    ensures free { HasFree result.0 0 }
    ensures number { result.0.number ≡ runner.number }
{
    let start = table.descriptor_start(0);
    let mut runner = runner;
    let mut others = 0_u64;
    for word in 0..DESCRIPTOR_WORDS as u32 {
        let (loaded, found) = fetch_word(table, runner, 0, start, word);
        runner = loaded;
        others = others.wrapping_add((found != number) as u64);
    }
    (runner, others)
}

/// Compares the words of the own free descriptor 0 with the round's number, so many times, and counts those that
/// differ.
#[inline(never)]
fn compare_own_words(
    table: &FlockTable<Tray>,
    runner: Runner<Tray>,
    rounds: u32,
) -> (Runner<Tray>, u64)
    requires own { IsOf table.now runner }
    requires at { IsAt runner stages.Idle None }
    requires free { HasFree runner 0 }
    ensures own { IsOf table.now result.0 }
    ensures at { IsAt result.0 stages.Idle None }
    ensures number { result.0.number ≡ runner.number }
{
    let mut runner = runner;
    let mut sum = 0_u64;
    for round in 0..rounds {
        let (compared, others) = count_others(table, runner, round as u64);
        runner = compared;
        sum = sum.wrapping_add(others);
    }
    (runner, sum)
}

/// Enters and leaves, so many times, and adds up the epochs.
#[inline(never)]
fn enter_and_exit(
    table: &FlockTable<Tray>,
    runner: Runner<Tray>,
    rounds: u32,
) -> (Runner<Tray>, u64)
    requires own { IsOf table.now runner }
    requires at { IsAt runner stages.Idle None }
    ensures own { IsOf table.now result.0 }
    ensures at { IsAt result.0 stages.Idle None }
    ensures number { result.0.number ≡ runner.number }
{
    let mut runner = runner;
    let mut sum = 0_u64;
    for _ in 0..rounds {
        let (entered, epoch) = enter(table, runner);
        runner = exit(table, entered, epoch);
        sum = sum.wrapping_add(epoch);
    }
    (runner, sum)
}

/// Scans the announcements and advances the epoch, so many times, and counts the advances.
#[inline(never)]
fn scan(table: &FlockTable<Tray>, runner: Runner<Tray>, rounds: u32) -> (Runner<Tray>, u64)
    requires own { IsOf table.now runner }
    requires at { IsAt runner stages.Idle None }
    ensures own { IsOf table.now result.0 }
    ensures at { IsAt result.0 stages.Idle None }
    ensures number { result.0.number ≡ runner.number }
{
    let mut runner = runner;
    let mut sum = 0_u64;
    for _ in 0..rounds {
        let (scanned, advanced) = collect(table, runner);
        runner = scanned;
        sum = sum.wrapping_add(advanced as u64);
    }
    (runner, sum)
}

/// The rounds of this kind, and their sum.
fn repeat(
    table: &FlockTable<Tray>,
    runner: Runner<Tray>,
    kind: Kind,
    rounds: u32,
) -> (Runner<Tray>, u64)
    requires own { IsOf table.now runner }
    requires limits { IsWithinLimits table.now.layout }
    requires at { IsAt runner stages.Idle None }
    requires one { 0 < length table.now.requests }
    requires free { HasFree runner 0 }
    ensures own { IsOf table.now result.0 }
    ensures at { IsAt result.0 stages.Idle None }
    ensures number { result.0.number ≡ runner.number }
{
    match kind {
        Kind::LoadEntry => load_entries(table, runner, rounds),
        Kind::LoadCell => {
            let (entered, epoch) = enter(table, runner);
            let (entered, sum) = load_cells(table, entered, epoch, rounds);
            (exit(table, entered, epoch), sum)
        }
        Kind::PrivateLoad => load_own_words(table, runner, rounds),
        Kind::PrivateStore => store_own_words(table, runner, rounds),
        Kind::Descriptor => compare_own_words(table, runner, rounds),
        Kind::Enter => enter_and_exit(table, runner, rounds),
        Kind::Scan => scan(table, runner, rounds),
    }
}

/// The rounds of this kind, by the first worker of a table of their own, which is closed in the end. The answer is
/// their sum.
pub fn make_rounds(alloc: Global, kind: Kind, rounds: u32) -> Result<u64, AllocError> {
    let (table, keeper) = new_table(alloc)?;
    let (keeper, first, second) = crew(&table, alloc, keeper)?;
    let (first, sum) = repeat(&table, first, kind, rounds);
    drop(gather(table, keeper, first, second));
    Ok(sum)
}
