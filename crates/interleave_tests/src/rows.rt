//! Worked rows.
ghost use Rattle.std.specs.Prelude.{◌≤◌};
ghost use Rattle.machine_states.specs.map_history.specs.Requests.{AreInOrder};
ghost use Rattle.machine_states.specs.table_words.specs.Limits.{IsWithinLimits};

use interleave_core::{Event, EventKind, Machine, ScheduleError, StepError, Tray, all_schedules};
use machine_states::body_terms::{Thunk, Word};
use machine_states::map_history::{Op, Request};
use machine_states::runner_parts::{Part, thunk_words};
use machine_states::table_words::{DESCRIPTOR_WORDS, Layout};
use std::alloc::{AllocError, Global};
use std::process::Abort;

/// The first descriptor, behind the ten node slots of two workers and the keeper.
const DESCRIPTORS: u32 = 10;

fn layout(runners: u32) -> Layout
    requires some { 1 ≤ runners }
    requires few { runners ≤ 2 }
    ensures { IsWithinLimits result }
{
    Layout {
        runners,
        nodes: 2,
        sections: 2,
        version_max: 4294967295,
    }
}

/// Two requests in each of two traces.
fn requests() -> [Request; 4]
    ensures { AreInOrder result 64 }
{
    let op = Op::Get(1);
    [
        Request {
            trace: 0,
            number: 0,
            op,
        },
        Request {
            trace: 0,
            number: 1,
            op,
        },
        Request {
            trace: 1,
            number: 2,
            op,
        },
        Request {
            trace: 1,
            number: 3,
            op,
        },
    ]
}

/// The machine with the keeper and with one worker at least.
#[derive(Drop)]
struct Played {
    state: Machine<Tray>,
    ghost some: { 1 ≤ state.layout.runners },
}

/// It with two workers, in its first state.
fn begins(alloc: Global) -> Result<Played, AllocError> {
    let state = Machine::new(alloc, Tray, layout(2), &requests())?;
    Ok(Played { state })
}

/// Makes this step, and says whether it was enabled.
fn goes(machine: &mut Played, runner: u32, kind: EventKind) -> bool {
    machine.state.step(Event { runner, kind }).is_ok()
}

fn enters(machine: &mut Played, runner: u32) -> bool {
    goes(machine, runner, EventKind::EnterLoad)
        && goes(machine, runner, EventKind::Announce)
        && goes(machine, runner, EventKind::EnterAgain)
}

/// Enters, reads the lock, stores the words of a free descriptor, and guards it.
fn prepares(machine: &mut Played, runner: u32, descriptor: u32, thunk: &Thunk) -> bool {
    if !enters(machine, runner) || !goes(machine, runner, EventKind::LoadCell(Some(0))) {
        return false;
    }
    let words = thunk_words(thunk);
    let slot = DESCRIPTORS.saturating_add(descriptor);
    for word in 0..DESCRIPTOR_WORDS as u32 {
        let number = words.get(word as usize).copied().unwrap_or(0);
        if !goes(
            machine,
            runner,
            EventKind::PrivateStore { slot, word, number },
        ) {
            return false;
        }
    }
    goes(machine, runner, EventKind::Guard(Some(descriptor)))
}

/// Enters, and reads the lock.
fn looks(machine: &mut Played, runner: u32) -> bool {
    enters(machine, runner) && goes(machine, runner, EventKind::LoadCell(Some(0)))
}

/// Enters, reads the lock, guards this descriptor, and reads the lock once more: as a helper of the
/// section that the lock names.
fn watches(machine: &mut Played, runner: u32, descriptor: u32) -> bool {
    looks(machine, runner)
        && goes(machine, runner, EventKind::Guard(Some(descriptor)))
        && goes(machine, runner, EventKind::LoadCell(Some(0)))
}

/// Scans all announcements of two workers and the keeper, and advances the epoch where that is enabled.
fn collects(machine: &mut Played, runner: u32) -> bool {
    if !goes(machine, runner, EventKind::ScanEpoch) {
        return false;
    }
    for number in 0..3u32 {
        if !goes(machine, runner, EventKind::ScanOne(number)) {
            return false;
        }
    }
    let _ = goes(machine, runner, EventKind::Advance);
    true
}

/// Makes the ten private steps of a Make that fills this slot with zeros.
fn fills_slot(machine: &mut Played, runner: u32, slot: u32) -> bool {
    let number = Word::pack(0, 2).bits();
    for word in 0..5u32 {
        if !goes(machine, runner, EventKind::PrivateLoad { slot, word }) {
            return false;
        }
        if !goes(
            machine,
            runner,
            EventKind::PrivateStore { slot, word, number },
        ) {
            return false;
        }
    }
    true
}

/// Loads the thunk words and the done word.
fn opens(machine: &mut Played, runner: u32, descriptor: u32) -> bool {
    if !goes(machine, runner, EventKind::LoadThunk(Some(descriptor))) {
        return false;
    }
    for _ in 0..11u32 {
        if !goes(machine, runner, EventKind::LoadThunk(None)) {
            return false;
        }
    }
    goes(machine, runner, EventKind::LoadDone)
}

/// Makes a private step of a Make that fills a node of zeros, and none outside a run, where a
/// request's word may be loaded.
fn fills(machine: &mut Played, runner: u32) -> bool {
    if goes(
        machine,
        runner,
        EventKind::LoadEntry {
            request: 1,
            reply: false,
        },
    ) {
        return false;
    }
    let number = Word::pack(0, 2).bits();
    for slot in 0..DESCRIPTORS {
        for word in 0..5u32 {
            if goes(machine, runner, EventKind::PrivateLoad { slot, word })
                || goes(
                    machine,
                    runner,
                    EventKind::PrivateStore { slot, word, number },
                )
            {
                return true;
            }
        }
    }
    false
}

/// Makes the one step that comes next in a run.
fn goes_on(machine: &mut Played, runner: u32) -> bool {
    for kind in [
        EventKind::Commit,
        EventKind::LoadCell(None),
        EventKind::ExchangeCell,
        EventKind::MakeCommit,
        EventKind::RetireCommit,
        EventKind::SetDone,
        EventKind::Release,
        EventKind::ClockLoad,
        EventKind::StampExchange,
        EventKind::ClockRaise,
        EventKind::ReplyExchange,
    ] {
        if goes(machine, runner, kind) {
            return true;
        }
    }
    false
}

/// Opens the section, runs it to its end, and counts the steps.
fn runs(machine: &mut Played, runner: u32, descriptor: u32) -> u32 {
    if !opens(machine, runner, descriptor) {
        return 0;
    }
    let mut steps = 13u32;
    for _ in 0..64u32 {
        if !goes_on(machine, runner) && !fills(machine, runner) {
            break;
        }
        steps = steps.saturating_add(1);
    }
    steps
}

#[test]
fn a_runner_enters_and_leaves(rt: HostRuntime) -> Result<(), AllocError> {
    let kinds = [
        EventKind::EnterLoad,
        EventKind::Announce,
        EventKind::EnterAgain,
        EventKind::Idle,
    ];
    let events = kinds.map(|kind| Event { runner: 0, kind });
    let leaves = match all_schedules(rt.alloc(), Tray, layout(1), &[], &events) {
        Ok(machine) => machine.announcement(0) == 0 && machine.epoch() == 1,
        Err(_) => false,
    };
    assert!(rt; leaves);
    let state = Machine::new(rt.alloc(), Tray, layout(1), &[])?;
    let mut machine = Played { state };
    assert!(rt; enters(&mut machine, 0));
    assert!(rt; machine.state.announcement(0) == 1);
    assert!(rt; goes(&mut machine, 0, EventKind::Idle));
    assert!(rt; machine.state.announcement(0) == 0);
    assert!(rt; machine.state.epoch() == 1);
    Ok(())
}

#[test]
fn a_list_that_begins_with_announce_is_refused_at_its_start(
    rt: HostRuntime,
) -> Result<(), AllocError> {
    let events = [Event {
        runner: 0,
        kind: EventKind::Announce,
    }];
    let refused = match all_schedules(rt.alloc(), Tray, layout(1), &[], &events) {
        Err(ScheduleError::NotEnabled { at, enabled: _ }) => at == 0,
        _ => false,
    };
    assert!(rt; refused);
    Ok(())
}

#[test]
fn idle_enables_eight_kinds(rt: HostRuntime) -> Result<(), AllocError> {
    let mut machine = begins(rt.alloc())?;
    let kinds = match machine.state.step(Event {
        runner: 0,
        kind: EventKind::Announce,
    }) {
        Err(StepError::NotEnabled { enabled }) => enabled,
        _ => 0,
    };
    let loads = 1 << 11 | 1 << 26 | 1 << 32 | 1 << 38;
    assert!(rt; kinds == 1 | 1 << 4 | 1 << 12 | 1 << 34 | loads);
    Ok(())
}

/// The number that a word of a row stands for: `7@2` is the word with value 7 and version 2.
fn number_of(text: &str) -> u64 {
    match text.split_once('@') {
        Some((value, version)) => {
            let (value, version) = (value.parse().unwrap_or(0), version.parse().unwrap_or(0));
            Word::pack(value, version).bits()
        }
        None => text.parse().unwrap_or(0),
    }
}

/// The same as a word of a row.
fn word_text(alloc: Global, number: u64) -> Result<String, AllocError> {
    let word = Word::from_bits(number);
    let (value, version) = (word.value(), word.version());
    format!(in alloc; "{value:?}@{version:?}")
}

/// A step of a row: who makes it, its name, and its numbers: first of all a descriptor, a slot, a place, a word of the
/// board or another runner's number, and behind it the form, the request, the operand and the lock's word of a thunk,
/// or the link or the slot of a step on the board.
#[derive(Clone, Copy)]
struct Line<'a> {
    runner: u32,
    name: &'a str,
    numbers: [u64; 5],
}

impl<'a> Line<'a> {
    fn new(text: &'a str) -> Line<'a> {
        let (runner, rest) = text.split_once(' ').unwrap_or((text, ""));
        let (name, rest) = rest.split_once(' ').unwrap_or((rest, ""));
        let mut numbers = [0; 5];
        let mut at = 0;
        for word in rest.split(' ') {
            if at < 5 {
                numbers[at] = number_of(word);
                at += 1;
            }
        }
        Line {
            runner: runner.parse().unwrap_or(0),
            name,
            numbers,
        }
    }

    /// Its first number.
    fn first(&self) -> u32 {
        u32::try_from(self.numbers[0]).unwrap_or(0)
    }

    /// Its second number.
    fn second(&self) -> u32 {
        u32::try_from(self.numbers[1]).unwrap_or(0)
    }

    /// Its thunk, behind the lock at place 0.
    fn thunk(&self) -> Thunk {
        let [_, form, request, operand, word] = self.numbers;
        Thunk {
            form,
            request: u32::try_from(request).unwrap_or(0),
            lock: 0,
            word: Word::from_bits(word),
            operands: [operand, 0, 0, 0, 0, 0, 0, 0],
        }
    }
}

/// The kind of a single step.
fn kind_of(line: &Line) -> Option<EventKind> {
    let kind = match line.name {
        "look" => EventKind::LoadCell(Some(0)),
        "guard" => EventKind::Guard(Some(line.first())),
        "clear" => EventKind::Guard(None),
        "leave" => EventKind::Idle,
        "sweep" => EventKind::LoadGuard(line.first()),
        "hold" => EventKind::Hold {
            thunk: line.thunk(),
            descriptor: line.first(),
        },
        "thunk" => EventKind::LoadThunk(Some(line.first())),
        "load" => EventKind::LoadCell(None),
        "commit" => EventKind::Commit,
        "make" => EventKind::MakeCommit,
        "clock" => EventKind::ClockLoad,
        "stamp" => EventKind::StampExchange,
        "raise" => EventKind::ClockRaise,
        "store" => EventKind::ExchangeCell,
        "epoch" => EventKind::EpochForRetire,
        "retire" => EventKind::RetireCommit,
        "answer" => EventKind::ReplyExchange,
        "done" => EventKind::SetDone,
        "release" => EventKind::Release,
        "plan" => EventKind::ReadPlan(line.thunk()),
        "plan_clock" => EventKind::ReadClock,
        "plan_reply" => EventKind::ReadReply,
        "plan_stamp" => EventKind::ReadStamp,
        "read" => EventKind::BoardLoad(line.first()),
        "take" => EventKind::BoardTake(line.first(), line.numbers[1]),
        "give" => EventKind::BoardGive(line.first(), line.second()),
        _ => return None,
    };
    Some(kind)
}

/// What a worker is at and keeps.
fn part_of(machine: &Played, runner: u32) -> &Part {
    if runner == 0 {
        machine.state.part(0)
    } else {
        machine.state.part(1)
    }
}

/// Whether this slot is among the worker's free ones.
fn is_free(machine: &Played, runner: u32, slot: u32) -> bool {
    if runner == 0 {
        machine.state.is_free(0, slot)
    } else {
        machine.state.is_free(1, slot)
    }
}

/// Makes several steps, and says whether all were enabled; or answers a question about a slot.
fn acts(machine: &mut Played, line: &Line) -> Option<bool> {
    let (runner, first) = (line.runner, line.first());
    let done = match line.name {
        "enter" => enters(machine, runner),
        "prepare" => prepares(machine, runner, first, &line.thunk()),
        "watch" => watches(machine, runner, first),
        "open" => opens(machine, runner, first),
        "fill" => fills_slot(machine, runner, first),
        "collect" => collects(machine, runner),
        "live" => machine.state.is_live(first),
        "free" => is_free(machine, runner, first),
        _ => return None,
    };
    Some(done)
}

/// How the latest run of this part ended, its trail, and whether it was late.
fn ended(alloc: Global, part: &Part) -> Result<String, AllocError> {
    match part.records.finished.last() {
        None => Ok(String::new(alloc)),
        Some(last) => {
            let (outcome, trail) = (last.outcome, &last.trail);
            let late = if last.late { ", late" } else { "" };
            format!(in alloc; "{outcome:?} {trail:?}{late}")
        }
    }
}

/// The word of this cell, among the first eight.
fn cell(machine: &Played, place: u32) -> u64 {
    if place < 8 {
        machine.state.cell(place).bits()
    } else {
        0
    }
}

/// The worker's free descriptors, and those that it has retired and that aren't free again.
fn descriptors(alloc: Global, part: &Part) -> Result<String, AllocError> {
    let (free, limbo) = (&part.descriptors.free, &part.descriptors.limbo);
    format!(in alloc; "{free:?} {limbo:?}")
}

/// The worker's free node slots.
fn slots(alloc: Global, part: &Part) -> Result<String, AllocError> {
    let free = &part.nodes.free;
    format!(in alloc; "{free:?}")
}

/// What the worker read in a word of the board last, and what became of its exchange there.
fn board(alloc: Global, part: &Part) -> Result<String, AllocError> {
    match part.board.first() {
        None => Ok(String::new(alloc)),
        Some(load) => {
            let (read, tried) = (load.read, load.tried);
            format!(in alloc; "{read:?} {tried:?}")
        }
    }
}

/// The number of the word that this runner came to know last; 0 where it knows none.
fn learned(part: &Part) -> u64 {
    part.records.known.last().map(|x| x.number).unwrap_or(0)
}

/// A number of the machine or of a worker's: the steps of a run that it makes now; the epoch, and its announcement; how
/// many steps it has made, and the word that it came to know last.
fn count_of(machine: &mut Played, line: &Line) -> u64 {
    match line.name {
        "run" => u64::from(runs(machine, line.runner, line.first())),
        "now" => machine.state.epoch(),
        "announced" if line.runner == 0 => machine.state.announcement(0),
        "announced" => machine.state.announcement(1),
        "events" => part_of(machine, line.runner).records.events,
        _ => learned(part_of(machine, line.runner)),
    }
}

/// What the step or the question of this line shows.
fn shown(alloc: Global, machine: &mut Played, line: &Line) -> Result<String, AllocError> {
    match line.name {
        "cell" => word_text(alloc, cell(machine, line.first())),
        "log" => word_text(alloc, machine.state.log_word(0, line.first())),
        "ended" => ended(alloc, part_of(machine, line.runner)),
        "descriptors" => descriptors(alloc, part_of(machine, line.runner)),
        "slots" => slots(alloc, part_of(machine, line.runner)),
        "board" => board(alloc, part_of(machine, line.runner)),
        _ => {
            let count = count_of(machine, line);
            format!(in alloc; "{count:?}")
        }
    }
}

/// Plays a line: behind its text, what it shows; nothing where it is steps that were all enabled, or a true answer.
fn play_line(alloc: Global, machine: &mut Played, text: &str) -> Result<String, AllocError> {
    let line = Line::new(text);
    let done = match kind_of(&line) {
        Some(kind) => Some(goes(machine, line.runner, kind)),
        None => acts(machine, &line),
    };
    match done {
        Some(true) => format!(in alloc; "{text}"),
        Some(false) => format!(in alloc; "{text}: no"),
        None => {
            let shown = shown(alloc, machine, &line)?;
            format!(in alloc; "{text}: {shown}")
        }
    }
}

/// Plays the lines of a row, each up to what it is to show, and gives the row with what each showed.
fn play(alloc: Global, row: &str) -> Result<String, AllocError> {
    let mut machine = begins(alloc)?;
    let mut lines = Vec::new(alloc);
    for line in row.split("; ") {
        let (text, _) = line.split_once(": ").unwrap_or((line, ""));
        lines.push(play_line(alloc, &mut machine, text)?)?;
    }
    lines.as_slice().join(alloc, "; ")
}

/// Plays a row, and compares.
fn check(rt: &impl Abort, alloc: Global, row: &str) -> Result<(), AllocError> {
    let played = play(alloc, row)?;
    assert!(rt; played.as_str() == row, "{played}");
    Ok(())
}

#[test]
fn requests_are_published_once_and_in_their_order(rt: HostRuntime) -> Result<(), AllocError> {
    let row =
        "0 prepare 0 101 1 7 0@1; 0 hold 0 101 1 7 0@1: no; 0 clear; 0 leave; 0 prepare 1 101 0 7 0@1; 0 hold 1 \
        101 0 7 0@1; 0 run 1: 22; 0 clear; 0 leave; 0 prepare 0 101 0 7 0@3; 0 hold 0 101 0 7 0@3: no; 0 clear; \
        0 leave; 0 prepare 0 101 1 7 0@3; 0 hold 0 101 1 7 0@3";
    check(&rt, rt.alloc(), row)
}

#[test]
fn a_number_is_stored_once_and_a_late_helper_changes_nothing(
    rt: HostRuntime,
) -> Result<(), AllocError> {
    let row =
        "0 prepare 0 101 0 7 0@1; 0 hold 0 101 0 7 0@1; 1 watch 0; 0 run 0: 22; 0 cell 1: 7@2; 0 cell 0: 0@3; 0 \
        ended: Answered(4294967296) [4294967296]; 1 run 0: 22; 1 ended: Answered(4294967296) [4294967296], late; \
        0 cell 1: 7@2; 0 cell 0: 0@3";
    check(&rt, rt.alloc(), row)
}

#[test]
fn two_runners_store_a_number_once(rt: HostRuntime) -> Result<(), AllocError> {
    let row =
        "0 prepare 0 101 0 7 0@1; 0 hold 0 101 0 7 0@1; 1 watch 0; 0 open 0; 1 open 0; 0 load; 1 load; 1 commit; \
        0 commit; 0 clock; 0 stamp; 0 raise; 1 clock; 1 stamp; 1 raise; 1 store; 0 cell 1: 7@2; 0 store; 0 cell \
        1: 7@2; 0 log 0: 0@1; 0 log 1: 0@0";
    check(&rt, rt.alloc(), row)
}

#[test]
fn a_section_that_finds_another_word_leaves(rt: HostRuntime) -> Result<(), AllocError> {
    let row =
        "0 prepare 0 102 0 0@5 0@1; 0 hold 0 102 0 0@5 0@1; 0 run 0: 17; 0 ended: Stale { place: 2, expected: \
        Word { number: 21474836480 }, read: Word { number: 4294967296 } } [4294967296]; 0 free 0";
    check(&rt, rt.alloc(), row)
}

#[test]
fn a_node_is_made(rt: HostRuntime) -> Result<(), AllocError> {
    let row =
        "0 prepare 0 102 0 0@1 0@1; 0 hold 0 102 0 0@1 0@1; 0 run 0: 33; 0 cell 2: 1@2; 0 live 0; 0 live 1: no";
    check(&rt, rt.alloc(), row)
}

#[test]
fn a_lock_that_is_held_refuses(rt: HostRuntime) -> Result<(), AllocError> {
    let row =
        "0 prepare 0 101 0 7 0@1; 1 prepare 2 101 2 8 0@1; 1 hold 2 101 0 7 0@1: no; 0 hold 0 101 0 7 0@1; 1 hold \
        2 101 2 8 0@1; 0 cell 0: 1@2; 1 leave: no; 1 clear; 1 leave; 0 clear: no; 0 leave: no";
    check(&rt, rt.alloc(), row)
}

#[test]
fn two_runners_make_one_node(rt: HostRuntime) -> Result<(), AllocError> {
    let row =
        "0 prepare 0 102 0 0@1 0@1; 0 hold 0 102 0 0@1 0@1; 1 watch 0; 0 open 0; 1 open 0; 0 load; 0 commit; 0 \
        fill 0; 1 load; 1 commit; 1 fill 2; 1 make; 0 make; 0 clock; 0 stamp; 0 raise; 1 clock; 1 stamp; 1 \
        raise; 0 store; 1 store; 0 log 0: 0@1; 0 log 1: 3@0; 0 cell 2: 3@2; 0 live 2; 0 live 0: no; 0 free 0; 0 \
        cell 3: 0@2; 0 cell 4: 0@2; 0 cell 5: 0@2; 0 cell 6: 0@2; 0 cell 7: 0@2";
    check(&rt, rt.alloc(), row)
}

#[test]
fn a_node_is_taken_out(rt: HostRuntime) -> Result<(), AllocError> {
    // The last section makes 24 steps. Before it there are 90, with the load by which `runs` sees that a run is over.
    let row =
        "0 prepare 0 102 0 0@1 0@1; 0 hold 0 102 0 0@1 0@1; 0 run 0: 33; 0 clear; 0 leave; 0 prepare 1 103 1 1@2 \
        0@3; 0 hold 1 103 1 1@2 0@3; 0 events: 90; 0 open 1; 0 load; 0 commit; 0 clock; 0 stamp; 0 raise; 0 \
        store; 0 epoch; 0 retire; 0 answer; 0 done; 0 release; 0 events: 114; 0 cell 2: 0@3; 0 live 0: no; 0 \
        free 0: no";
    check(&rt, rt.alloc(), row)
}

#[test]
fn the_epoch_waits_for_an_old_announcement(rt: HostRuntime) -> Result<(), AllocError> {
    let row =
        "0 enter; 1 collect; 0 now: 2; 1 collect; 0 now: 2; 0 leave; 1 collect; 0 now: 3; 0 enter; 0 announced: 3";
    check(&rt, rt.alloc(), row)
}

#[test]
fn a_descriptor_that_no_guard_names_is_free_behind_a_sweep(
    rt: HostRuntime,
) -> Result<(), AllocError> {
    // The helper has read the lock in the old section's time, and runs the new one.
    let row =
        "0 prepare 0 101 0 7 0@1; 0 hold 0 101 0 7 0@1; 1 enter; 1 look; 0 run 0: 22; 0 clear; 0 leave; 0 sweep \
        0; 0 sweep 1; 0 descriptors: [1] [0]; 0 sweep 2; 0 descriptors: [1, 0] []; 1 guard 0; 0 prepare 0 101 1 \
        8 0@3; 0 hold 0 101 1 8 0@3; 1 look; 1 run 0: 22; 0 cell 1: 8@3";
    check(&rt, rt.alloc(), row)
}

#[test]
fn a_descriptor_that_a_guard_names_stays_in_limbo(rt: HostRuntime) -> Result<(), AllocError> {
    let row =
        "0 prepare 0 101 0 7 0@1; 0 hold 0 101 0 7 0@1; 1 watch 0; 0 run 0: 22; 0 clear; 0 leave; 0 sweep 0; 0 \
        sweep 1; 0 sweep 2; 0 descriptors: [1] [0]; 1 run 0: 22; 0 cell 1: 7@2; 1 clear; 0 sweep 0; 0 sweep 1; 0 \
        sweep 2; 0 descriptors: [1, 0] []";
    check(&rt, rt.alloc(), row)
}

#[test]
fn no_run_of_a_section_whose_lock_has_moved_on(rt: HostRuntime) -> Result<(), AllocError> {
    let row =
        "0 prepare 0 101 0 7 0@1; 0 hold 0 101 0 7 0@1; 1 enter; 1 look; 1 guard 0; 1 thunk 0: no; 0 run 0: 22; 1 \
        look; 1 thunk 0: no; 1 clear; 1 leave";
    check(&rt, rt.alloc(), row)
}

#[test]
fn a_sweep_begins_anew_behind_an_entry(rt: HostRuntime) -> Result<(), AllocError> {
    let row =
        "0 sweep 1: no; 0 sweep 0; 0 sweep 1; 0 enter; 0 sweep 2: no; 0 leave; 0 sweep 2: no; 0 sweep 0";
    check(&rt, rt.alloc(), row)
}

#[test]
fn a_read_writes_its_reply_and_its_stamp(rt: HostRuntime) -> Result<(), AllocError> {
    let row =
        "0 enter; 0 look; 0 plan 0 7 0 0 0@1; 0 plan_reply: no; 0 plan_clock; 0 plan_reply: no; 0 look; 0 \
        plan_stamp: no; 0 plan_reply; 0 learned: 4294967296; 0 leave: no; 0 plan_stamp; 0 learned: 1; 0 leave";
    check(&rt, rt.alloc(), row)
}

#[test]
fn no_read_behind_a_lock_that_was_taken_in_between(rt: HostRuntime) -> Result<(), AllocError> {
    let row =
        "0 enter; 0 look; 0 plan 0 7 0 0 0@1; 0 plan_clock; 1 prepare 2 101 2 7 0@1; 1 hold 2 101 2 7 0@1; 0 \
        look; 0 plan_reply: no; 0 leave";
    check(&rt, rt.alloc(), row)
}

#[test]
fn a_worker_gives_a_slot_and_another_takes_it(rt: HostRuntime) -> Result<(), AllocError> {
    let row =
        "0 slots: [1, 0]; 0 give 63 1; 0 slots: [0]; 0 give 63 1: no; 1 take 63 2: no; 1 read 63; 1 board: 2 Not; 1 \
        take 63 3: no; 1 take 63 2; 1 slots: [3, 2, 1]; 1 board: 2 Won; 0 read 63; 0 board: 0 Not; 0 read 64: no";
    check(&rt, rt.alloc(), row)
}

#[test]
fn of_two_that_take_a_slot_one_has_it(rt: HostRuntime) -> Result<(), AllocError> {
    let row =
        "0 live 0: no; 0 give 7 0; 0 live 0: no; 0 read 7; 1 read 7; 1 take 7 1; 0 take 7 1; 1 slots: [3, 2, 0]; 0 \
        slots: [1]; 0 board: 1 Lost; 1 give 7 0; 0 take 7 1; 0 slots: [1, 0]; 0 board: 1 Won";
    check(&rt, rt.alloc(), row)
}

#[test]
fn a_taken_word_of_the_board_refuses_a_slot(rt: HostRuntime) -> Result<(), AllocError> {
    let row =
        "0 give 7 0; 1 give 7 2; 1 slots: [3, 2]; 1 read 7; 1 board: 1 Not; 1 give 7 2; 1 board: 1 Lost; 1 enter; 1 \
        read 7: no; 1 give 8 2: no; 1 take 7 1: no; 1 leave; 1 board: ; 1 take 7 1: no";
    check(&rt, rt.alloc(), row)
}
