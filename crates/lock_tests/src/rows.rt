//! Tests on the test structure. What comes of a row is shown as a text: how each run went (`Turn::shown`), and what is
//! left (`left`).
ghost use Rattle.std.specs.Prelude.{◌≡◌, ◌<◌, ℕ, IfOk};
ghost use Rattle.machine_states.specs.body_terms.specs.Trail.{Agreed};
ghost use Rattle.machine_states.specs.structure_laws.specs.Tray.{tray};
ghost use Rattle.machine_states.specs.body_terms.specs.declared.outcome.Outcome.{Outcome};
ghost use Rattle.hash_table.specs.try_lock.specs.section_runs.specs.declared.runs.RunEnd.TheVariants.{Done};
ghost use Rattle.hash_table.specs.try_lock.specs.epoch_slots.specs.Collects.{IsTidy};
ghost use Rattle.settled_tables.specs.closed_words.specs.version_words.specs.TableState.{IsOf};
ghost use Rattle.lock_tests.specs.Scenes.{IsScene, two_requests};
ghost use Rattle.lock_tests.specs.Workers.{IsReady, MayMeet};

use crate::courses::scan_and_sweep;
use crate::offers::Offer;
use crate::scenes::{come_in, new_crew, offer, visit};
use crate::scripts::scripted;
use crate::texts::check;
use crate::turns::{Turn, read_lock, run_own};
use crate::watched::{Ended, Watched, watch_section};
use crate::workers::Crew;
use hash_table::lock_walks::epoch_slots::{Kind, collect, exit, reserve};
use hash_table::lock_walks::section_runs::RunEnd;
use hash_table::lock_walks::version_words::{FlockTable, Runner, Words};
use interleave_core::Tray;
use machine_states::body_terms::StepKind;
use settled_tables::settling::runner_gate::Free;
use std::alloc::{AllocError, Global};
use std::thread::Threads;

/// The first word of a cell: value 0, version 1.
const FIRST: u64 = 4294967296;

/// The first two workers' slots, as a text: their free node slots and free descriptors, and how many node slots are in
/// limbo.
fn slots_left(alloc: Global, crew: &Crew<Tray>) -> Result<String, AllocError> {
    let (one, two) = (crew.first.free_nodes(), crew.second.free_nodes());
    let (three, four) = (
        crew.first.free_descriptors(),
        crew.second.free_descriptors(),
    );
    let (first, second) = (crew.first.limbo_nodes(), crew.second.limbo_nodes());
    format!(in alloc;
        "free {one:?} {two:?}, descriptors {three:?} {four:?}, limbo {first:?} {second:?}"
    )
}

/// The value and the version of the lock, of the number, of the link, and of each cell of the first node slot.
fn cells_left(alloc: Global, words: &Words<Tray>) -> Result<String, AllocError>
    requires { words.now.layout.runners ≡ 2 }
{
    let mut cells = Vec::new(alloc);
    for place in 0..8 {
        let word = words.cell(place);
        cells.push((word.value(), word.version()))?;
    }
    format!(in alloc; "{cells:?}")
}

/// What the workers leave, as a text: their slots, the first cells, and both requests' entries.
fn left(alloc: Global, crew: Crew<Tray>) -> Result<String, AllocError>
    requires { crew.table.requests ≡ two_requests }
{
    let slots = slots_left(alloc, &crew);
    let words = crew.gather();
    let cells = cells_left(alloc, &words);
    let (one, two) = (words.entry(0), words.entry(1));
    drop(words);
    let (slots, cells) = (slots?, cells?);
    format!(in alloc; "{slots}, cells {cells}, entries {one:?} {two:?}")
}

/// The first worker publishes such a section, and then the second one watches the held lock.
fn watched(alloc: Global, form: u64, operand: u64) -> Result<Watched<Tray>, AllocError>
    ensures requests { IfOk result (λ x. x.crew.table.requests ≡ two_requests) }
    ensures meet { IfOk result (λ x. MayMeet tray x.section x.held x.crew.first x.crew.second) }
{
    let crew = new_crew(alloc)?;
    let Crew {
        table,
        keeper,
        first,
        second,
    } = crew;
    let (first, free) = read_lock(&table, first, 0);
    let (first, offered) = offer(&table, first, free, form, operand);
    let crew = Crew {
        table,
        keeper,
        first,
        second,
    };
    watch_section(crew, offered)
}

/// As a text: how both runs of the first worker's section went, and what is left, each on a line.
fn shown(alloc: Global, ended: Ended<Tray>) -> Result<String, AllocError>
    requires { ended.crew.table.requests ≡ two_requests }
{
    let Ended { crew, ran, helped } = ended;
    let (ran, helped) = (ran.shown(alloc), helped.shown(alloc));
    let left = left(alloc, crew);
    let (ran, helped, left) = (ran?, helped?, left?);
    format!(in alloc; "{ran}\n{helped}\n{left}")
}

/// The first worker runs such a section, and is halted at its ask with this number, if any; after that the second one
/// helps.
fn in_turn(
    alloc: Global,
    form: u64,
    operand: u64,
    halt: Option<u64>,
) -> Result<String, AllocError> {
    let watched = watched(alloc, form, operand)?;
    shown(alloc, watched.in_turn(halt))
}

/// Both are at such a section side by side, each on a thread, by this script.
fn on_threads<R: Threads + Sync>(
    rt: &R,
    alloc: Global,
    form: u64,
    operand: u64,
    lines: &[(u32, StepKind, u32, StepKind)],
) -> Result<String, AllocError> {
    let gates = scripted(alloc, lines)?;
    let watched = watched(alloc, form, operand)?;
    shown(alloc, watched.on_threads(rt, gates))
}

/// The run of a section that stored a number, and such a run that was late.
const ANSWERED: &str = "22 Answered(4294967296) [4294967296]";

const LATE: &str = "22 Answered(4294967296) [4294967296], late";

/// What is left where the number 7 was stored once, by whomever.
const STORED: &str = "free [1, 0] [3, 2], descriptors [] [1], limbo 0 0, \
    cells [(0, 3), (7, 2), (0, 1), (0, 1), (0, 1), (0, 1), (0, 1), (0, 1)], \
    entries Some((2, 4294967296)) None";

#[test]
fn a_number_is_stored_in_22_steps_and_helped_too_late(rt: HostRuntime) -> Result<(), AllocError> {
    let row = in_turn(rt.alloc(), 101, 7, None);
    check(&rt, rt.alloc(), row, &[ANSWERED, LATE, STORED])
}

/// What is left where nothing but the lock was written.
const LEFT: &str = "free [1, 0] [3, 2], descriptors [] [1], limbo 0 0, \
    cells [(0, 3), (0, 1), (0, 1), (0, 1), (0, 1), (0, 1), (0, 1), (0, 1)], \
    entries None None";

#[test]
fn a_section_that_finds_another_word_leaves_after_17_steps(
    rt: HostRuntime,
) -> Result<(), AllocError> {
    let row = in_turn(rt.alloc(), 102, 21474836480, None);
    let stale = "17 Stale { place: 2, expected: Word { number: 21474836480 }, \
        read: Word { number: 4294967296 } } [4294967296]";
    let late = "17 Stale { place: 2, expected: Word { number: 21474836480 }, \
        read: Word { number: 4294967296 } } [4294967296], late";
    check(&rt, rt.alloc(), row, &[stale, late, LEFT])
}

#[test]
fn a_worker_that_stops_before_its_store_leaves_it_to_the_helper(
    rt: HostRuntime,
) -> Result<(), AllocError> {
    let row = in_turn(rt.alloc(), 101, 7, Some(18));
    check(&rt, rt.alloc(), row, &["18 Halted", ANSWERED, STORED])
}

#[test]
fn a_helper_on_a_thread_is_late_after_its_owner(rt: HostRuntime) -> Result<(), AllocError> {
    let lines = [
        (1, StepKind::Opening, 0, StepKind::Release),
        (0, StepKind::Release, 1, StepKind::Release),
    ];
    let row = on_threads(&rt, rt.alloc(), 101, 7, &lines);
    check(&rt, rt.alloc(), row, &[ANSWERED, LATE, STORED])
}

#[test]
fn two_threads_store_a_number_once(rt: HostRuntime) -> Result<(), AllocError> {
    let lines = [
        (1, StepKind::Opening, 0, StepKind::LoadCell),
        (0, StepKind::LoadCell, 1, StepKind::Commit),
        (0, StepKind::Commit, 1, StepKind::CellExchange),
    ];
    let row = on_threads(&rt, rt.alloc(), 101, 7, &lines);
    check(&rt, rt.alloc(), row, &[ANSWERED, ANSWERED, STORED])
}

#[test]
fn two_threads_make_one_node(rt: HostRuntime) -> Result<(), AllocError> {
    let lines = [
        (1, StepKind::Opening, 0, StepKind::Private),
        (0, StepKind::Private, 1, StepKind::MakeCommit),
    ];
    let row = on_threads(&rt, rt.alloc(), 102, FIRST, &lines);
    let made = "33 Answered(4294967296) [4294967296, 3]";
    let left = "free [1, 0] [3], descriptors [] [1], limbo 0 0, \
        cells [(0, 3), (0, 1), (3, 2), (0, 2), (0, 2), (0, 2), (0, 2), (0, 2)], \
        entries Some((2, 4294967296)) None";
    check(&rt, rt.alloc(), row, &[made, made, left])
}

/// The same with gates that never wait, so that each of both runs may be late.
fn in_any_order<R: Threads + Sync>(rt: &R, alloc: Global) -> Result<String, AllocError> {
    let watched = watched(alloc, 101, 7)?;
    let row = shown(alloc, watched.on_threads(rt, (Free::new(), Free::new())))?;
    row.replace(alloc, ", late", "")
}

#[test]
fn two_threads_in_any_order_store_a_number_once(rt: HostRuntime) -> Result<(), AllocError> {
    let row = in_any_order(&rt, rt.alloc());
    check(&rt, rt.alloc(), row, &[ANSWERED, ANSWERED, STORED])
}

/// The worker reads the lock, publishes such a section, and runs it. Where the lock is taken it makes no step.
fn run_next(
    table: &FlockTable<Tray>,
    runner: Runner<Tray>,
    form: u64,
    operand: u64,
) -> (Runner<Tray>, Turn)
    requires own { IsOf table.now runner }
    requires scene { IsScene table.now }
    requires ready { (number : ℕ) × IsReady number runner }
    requires worker { runner.number < 2 }
    ensures own { IsOf table.now result.0 }
    ensures number { result.0.number ≡ runner.number }
    ensures tidy { (outcome : Outcome) (trail : Agreed) → result.1.end ≡ Done outcome trail → IsTidy result.0 }
{
    let (runner, free) = read_lock(table, runner, 0);
    let (runner, offered) = offer(table, runner, free, form, operand);
    match offered {
        Offer::Published(section) => run_own(table, runner, section, &mut Free::new()),
        _ => (
            runner,
            Turn {
                end: RunEnd::Halted,
                steps: 0,
            },
        ),
    }
}

/// Two scans of a worker that has run its section to the end, and a sweep; else none.
fn scan_twice(table: &FlockTable<Tray>, runner: Runner<Tray>, turn: &Turn) -> Runner<Tray>
    requires own { IsOf table.now runner }
    requires tidy { (outcome : Outcome) (trail : Agreed) → turn.now.end ≡ Done outcome trail → IsTidy runner }
    ensures own { IsOf table.now result }
    ensures number { result.number ≡ runner.number }
{
    match &turn.end {
        RunEnd::Done(_, _) => {
            let runner = scan_and_sweep(table, runner);
            scan_and_sweep(table, runner)
        }
        RunEnd::Halted => runner,
    }
}

/// The first worker makes a node, and the second one takes it out and scans twice.
fn made_and_retired(alloc: Global) -> Result<String, AllocError> {
    let Crew {
        table,
        keeper,
        first,
        second,
    } = new_crew(alloc)?;
    let (first, ran) = run_next(&table, first, 102, FIRST);
    let (second, helped) = run_next(&table, second, 103, 8589934593);
    let second = scan_twice(&table, second, &helped);
    let crew = Crew {
        table,
        keeper,
        first,
        second,
    };
    shown(alloc, Ended { crew, ran, helped })
}

#[test]
fn a_retired_node_is_free_again_after_two_epochs(rt: HostRuntime) -> Result<(), AllocError> {
    let made = "33 Answered(4294967296) [4294967296, 1]";
    let gone = "24 Answered(17179869184) [8589934593, 1]";
    let left = "free [1] [3, 2, 0], descriptors [] [1], limbo 0 0, \
        cells [(0, 5), (0, 1), (0, 3), (0, 2), (0, 2), (0, 2), (0, 2), (0, 2)], \
        entries Some((2, 4294967296)) Some((4, 17179869184))";
    let row = made_and_retired(rt.alloc());
    check(&rt, rt.alloc(), row, &[made, gone, left])
}

/// Both workers read the lock before each of them offers a section: both words, what came of both offers, and what is
/// left.
fn offered_twice(alloc: Global) -> Result<String, AllocError> {
    let Crew {
        table,
        keeper,
        first,
        second,
    } = new_crew(alloc)?;
    let (first, free) = read_lock(&table, first, 0);
    let (second, as_free) = read_lock(&table, second, 0);
    let (first, won) = offer(&table, first, free, 101, 7);
    let (second, lost) = offer(&table, second, as_free, 101, 8);
    let crew = Crew {
        table,
        keeper,
        first,
        second,
    };
    let left = left(alloc, crew)?;
    format!(in alloc; "{free:?} {as_free:?}\n{won:?}\n{lost:?}\n{left}")
}

#[test]
fn the_second_publication_finds_the_lock_held(rt: HostRuntime) -> Result<(), AllocError> {
    let free = "Word { number: 4294967296 } Word { number: 4294967296 }";
    let won = "Published(Section { descriptor: 0, place: 0, held: Word { number: 8589934593 } })";
    let lost = "Refused(Busy(Word { number: 8589934593 }))";
    let left = "free [1, 0] [3, 2], descriptors [] [1], limbo 0 0, \
        cells [(1, 2), (0, 1), (0, 1), (0, 1), (0, 1), (0, 1), (0, 1), (0, 1)], entries None None";
    let row = offered_twice(rt.alloc());
    check(&rt, rt.alloc(), row, &[free, won, lost, left])
}

/// The worker scans the announcements, enters and leaves. The answer is the epoch of the entry.
fn scan_and_visit(table: &FlockTable<Tray>, runner: Runner<Tray>) -> (Runner<Tray>, Option<u64>)
    requires own { IsOf table.now runner }
    requires tidy { IsTidy runner }
    ensures own { IsOf table.now result.0 }
    ensures tidy { IsTidy result.0 }
{
    let runner = collect(table, runner);
    visit(table, runner)
}

/// The epoch with which the first worker is entered; those of two visits of the second one beside it, and of one once
/// the first one has left; the first one's entry then, and the second one's node slots in limbo.
fn epochs(alloc: Global) -> Result<String, AllocError> {
    let Crew {
        table,
        keeper,
        first,
        second,
    } = new_crew(alloc)?;
    drop(keeper);
    let first = come_in(&table, first);
    let entered = first.entered();
    let (second, once) = scan_and_visit(&table, second);
    let (second, twice) = scan_and_visit(&table, second);
    let first = exit(&table, first);
    let (second, again) = scan_and_visit(&table, second);
    let (gone, limbo) = (first.entered(), second.limbo_nodes());
    format!(in alloc; "{entered:?}, {once:?} {twice:?} {again:?}, {gone:?}, {limbo:?}")
}

#[test]
fn an_entered_runner_holds_the_epoch_back(rt: HostRuntime) -> Result<(), AllocError> {
    let row = epochs(rt.alloc());
    check(
        &rt,
        rt.alloc(),
        row,
        &["Some(1), Some(2) Some(2) Some(3), None, 0"],
    )
}

/// What a worker is told that has two free node slots and asks for two, and then for three.
fn reserved_too_many(alloc: Global) -> Result<String, AllocError> {
    let Crew {
        table,
        keeper,
        first,
        second,
    } = new_crew(alloc)?;
    drop(keeper);
    drop(second);
    let Ok(first) = reserve(first, Kind::Node, 2) else {
        return Err(AllocError);
    };
    let told = reserve(first, Kind::Node, 3)
        .map_err(|refused| refused.1)
        .err();
    drop(table);
    format!(in alloc; "{told:?}")
}

#[test]
fn a_reserve_of_three_of_two_slots_is_refused(rt: HostRuntime) -> Result<(), AllocError> {
    let row = reserved_too_many(rt.alloc());
    check(
        &rt,
        rt.alloc(),
        row,
        &["Some(Short { kind: Node, free: 2, limbo: 0, worn: 0, board: 0 })"],
    )
}
