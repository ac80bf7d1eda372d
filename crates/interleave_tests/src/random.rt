//! Random schedules of two workers and the keeper, against the plain runs of the sections that they
//! publish.
ghost use Rattle.std.specs.Prelude.{◌≡◌, ◌≤◌, length};
ghost use Rattle.machine_states.specs.map_history.specs.Requests.{AreInOrder};
ghost use Rattle.machine_states.specs.map_history.specs.declared.op.Op.TheVariants.{Get};

use crate::plain_runs::{PlainRun, plain_run};
use crate::two_workers::{OWN, SECTIONS, TwoWorkers};
use interleave_core::runner_asks::last_of;
use interleave_core::{EventKind, StepError};
use machine_states::body_terms::{Outcome, Thunk, Word};
use machine_states::map_history::{Op, Request};
use machine_states::runner_parts::{Finished, Part, thunk_words};
use machine_states::table_words::{DESCRIPTOR_WORDS, PART_WORDS};
use std::alloc::{AllocError, Global};

/// The first descriptor, behind the node slots of two workers and six of the keeper.
const DESCRIPTORS: u32 = 2 * OWN + 6;

/// How many schedules are run, with the seeds from 0 on.
const SCHEDULES: u64 = 10;

/// How many enabled events each schedule has.
const EVENTS: u32 = 1000;

/// How many turns a schedule has at most: one at which a runner makes no step is no event.
const TURNS: u32 = 40000;

/// Numbers from a fixed seed.
#[derive(Drop)]
struct Numbers {
    state: u64,
}

impl Numbers {
    /// A number below this one.
    fn below(&mut self, limit: u64) -> u64 {
        self.state = self
            .state
            .wrapping_mul(6364136223846793005)
            .wrapping_add(1442695040888963407);
        if limit == 0 {
            0
        } else {
            (self.state >> 33) % limit
        }
    }

    /// The runner that is next: a worker, or the keeper.
    fn runner(&mut self) -> u32 {
        match self.below(3) {
            0 => 0,
            1 => 1,
            _ => 2,
        }
    }
}

/// What a worker is about: the section that it prepares or has published, the word to store
/// next and whether only the first ones again, and whether it has read the lock.
#[derive(Clone, Copy)]
struct Worker {
    runner: u32,
    thunk: Thunk,
    descriptor: u32,
    next: u32,
    again: bool,
    looked: bool,
    published: bool,
}

/// A published section with its plain run.
#[derive(Drop)]
struct Section {
    descriptor: u32,
    thunk: Thunk,
    plain: PlainRun,
}

/// The kind with this number, where its events carry no argument in a run or outside one.
fn plain_kind(number: u32) -> EventKind {
    match number {
        0 => EventKind::EnterLoad,
        1 => EventKind::Announce,
        2 => EventKind::EnterAgain,
        6 => EventKind::Advance,
        8 => EventKind::Commit,
        9 => EventKind::LoadCell(None),
        10 => EventKind::ExchangeCell,
        13 => EventKind::MakeCommit,
        14 => EventKind::RetireCommit,
        15 => EventKind::EpochForRetire,
        16 => EventKind::LoadThunk(None),
        17 => EventKind::LoadDone,
        19 => EventKind::SetDone,
        20 => EventKind::Release,
        21 => EventKind::ClockLoad,
        22 => EventKind::StampExchange,
        23 => EventKind::ClockRaise,
        24 => EventKind::ReplyExchange,
        _ => EventKind::Idle,
    }
}

/// What a worker or the keeper is at and keeps.
fn part_of(machine: &TwoWorkers, runner: u32) -> &Part {
    match runner {
        0 => machine.part(0),
        1 => machine.part(1),
        _ => machine.part(2),
    }
}

/// The slot that the runner's Make fills, and the number that it stores next.
fn filled(part: &Part) -> (u32, u64) {
    match &part.run {
        None => (0, 0),
        Some(run) => {
            let slot = match run.made {
                None => last_of(&part.nodes.free).unwrap_or(0),
                Some(slot) => slot,
            };
            let version = Word::from_bits(run.word).version().saturating_add(1);
            (slot, Word::pack(0, version).bits())
        }
    }
}

/// Makes the next private step of a Make.
fn makes_private(machine: &mut TwoWorkers, runner: u32, loads: bool) -> bool {
    let (slot, number) = filled(part_of(machine, runner));
    for word in 0..5u32 {
        let kind = if loads {
            EventKind::PrivateLoad { slot, word }
        } else {
            EventKind::PrivateStore { slot, word, number }
        };
        if machine.goes(runner, kind) {
            return true;
        }
    }
    false
}

/// Loads the next announcement of a scan.
fn scans(machine: &mut TwoWorkers, runner: u32) -> bool {
    for number in 0..3u32 {
        if machine.goes(runner, EventKind::ScanOne(number)) {
            return true;
        }
    }
    false
}

/// Makes a step of an idle runner: it begins a scan, enters, or loads the next guard word of a sweep, mostly where it
/// has retired a descriptor.
fn rests(machine: &mut TwoWorkers, runner: u32, numbers: &mut Numbers) -> bool {
    let part = part_of(machine, runner);
    let has_retired = part.descriptors.limbo.len() != 0;
    let next = u32::try_from(part.guards.looked.len()).unwrap_or(0);
    let kind = match numbers.below(16) {
        0..4 => EventKind::ScanEpoch,
        4 => EventKind::EnterLoad,
        5 => EventKind::LoadGuard(next),
        _ if has_retired => EventKind::LoadGuard(next),
        _ => EventKind::EnterLoad,
    };
    machine.goes(runner, kind)
}

/// Makes the step of a runner that is in a run, scanning or entering.
fn goes_on(machine: &mut TwoWorkers, runner: u32, kinds: u64) -> bool {
    if kinds & (1 << 5) != 0 {
        return scans(machine, runner);
    }
    if kinds & (1 << 11 | 1 << 12) != 0 {
        return makes_private(machine, runner, kinds & (1 << 11) != 0);
    }
    machine.goes(runner, plain_kind(kinds.trailing_zeros()))
}

/// A thunk for the words that stand now.
fn planned(machine: &TwoWorkers, form: u64, request: u32) -> Thunk {
    let link = machine.cell(2);
    let form = if form == 101 {
        101
    } else if link.value() == 0 {
        102
    } else {
        103
    };
    let operand = if form == 101 {
        u64::from(request)
    } else {
        link.bits()
    };
    Thunk {
        form,
        request,
        lock: 0,
        word: machine.cell(0),
        operands: [operand, 0, 0, 0, 0, 0, 0, 0],
    }
}

/// Clears the guard, or becomes idle where it is clear.
fn leaves(machine: &mut TwoWorkers, runner: u32) -> bool {
    let kind = match part_of(machine, runner).guards.named {
        None => EventKind::Idle,
        Some(_) => EventKind::Guard(None),
    };
    machine.goes(runner, kind)
}

/// The descriptor that the lock named when the runner last read it.
fn last_named(part: &Part) -> Option<u32> {
    match part.reads.walk.last() {
        None => None,
        Some((_, word)) => word.value().checked_sub(1),
    }
}

/// The next step of a helper: it reads the lock, guards the descriptor that the lock named, reads the
/// lock once more, and runs the section of which it is sure then.
fn helping(part: &Part) -> EventKind {
    let named = part.guards.named;
    if part.guards.sure {
        return EventKind::LoadThunk(named);
    }
    match last_named(part) {
        Some(descriptor) if named != Some(descriptor) => EventKind::Guard(Some(descriptor)),
        _ => EventKind::LoadCell(Some(0)),
    }
}

/// Helps the section that holds the lock, or reads the lock, or guards any descriptor or none, or leaves.
fn helps(machine: &mut TwoWorkers, runner: u32, numbers: &mut Numbers) -> bool {
    let any = u32::try_from(numbers.below(u64::from(SECTIONS))).unwrap_or(0);
    let kind = match numbers.below(8) {
        0 => return leaves(machine, runner),
        1 => EventKind::LoadCell(Some(0)),
        2 => EventKind::Guard(Some(any)),
        3 => EventKind::Guard(None),
        _ => helping(part_of(machine, runner)),
    };
    machine.goes(runner, kind)
}

/// Stores the worker's next word, and gives the kinds that it may make where it can't or has none
/// to store.
fn stores(machine: &mut TwoWorkers, worker: &mut Worker) -> Option<u64> {
    if worker.published || worker.next >= DESCRIPTOR_WORDS as u32 {
        return Some(machine.kinds(worker.runner));
    }
    if worker.next == 0 && !worker.again {
        let free = &part_of(machine, worker.runner).descriptors.free;
        worker.descriptor = last_of(free).unwrap_or(worker.descriptor);
    }
    let word = worker.next;
    let number = thunk_words(&worker.thunk)
        .get(word as usize)
        .copied()
        .unwrap_or(0);
    let slot = DESCRIPTORS.saturating_add(worker.descriptor);
    match machine.step(
        worker.runner,
        EventKind::PrivateStore { slot, word, number },
    ) {
        Ok(()) => {
            let last = if worker.again {
                4
            } else {
                DESCRIPTOR_WORDS as u32 - 1
            };
            worker.next = if word < last {
                word.saturating_add(1)
            } else {
                DESCRIPTOR_WORDS as u32
            };
            None
        }
        Err(StepError::NotEnabled { enabled }) => Some(enabled),
        Err(StepError::Memory) => Some(0),
    }
}

/// Makes a step towards the publication of the worker's section, whose words are stored.
fn prepares(machine: &mut TwoWorkers, worker: &mut Worker) -> bool {
    let runner = worker.runner;
    if worker.thunk != planned(machine, worker.thunk.form, worker.thunk.request) {
        worker.thunk = planned(machine, worker.thunk.form, worker.thunk.request);
        worker.next = 0;
        worker.again = true;
        worker.looked = false;
        return false;
    }
    if !worker.looked {
        worker.looked = true;
        return machine.goes(runner, EventKind::LoadCell(Some(0)));
    }
    if part_of(machine, runner).guards.named != Some(worker.descriptor) {
        return machine.goes(runner, EventKind::Guard(Some(worker.descriptor)));
    }
    worker.looked = false;
    let kind = EventKind::Hold {
        thunk: worker.thunk,
        descriptor: worker.descriptor,
    };
    worker.published = machine.goes(runner, kind)
        && machine.cell(0).value() == worker.descriptor.saturating_add(1);
    worker.published
}

/// Whether the worker's latest run answered its request.
fn is_answered(machine: &TwoWorkers, runner: u32) -> bool {
    match part_of(machine, runner).records.finished.last() {
        None => false,
        Some(last) => matches!(last.outcome, Outcome::Answered(_)),
    }
}

/// The worker is about its next section, for the same request where the one before didn't answer it.
fn plans_next(machine: &TwoWorkers, worker: &mut Worker, numbers: &mut Numbers) {
    if is_answered(machine, worker.runner) {
        worker.thunk.request = worker.thunk.request.saturating_add(1);
    }
    worker.thunk.form = if numbers.below(2) == 0 { 101 } else { 102 };
    worker.published = false;
    worker.again = false;
    worker.next = 0;
}

/// Makes a step of an entered worker that is in no run. One whose section is over leaves, and plans the next one when
/// it has entered again.
fn walks(machine: &mut TwoWorkers, worker: &mut Worker, numbers: &mut Numbers) -> bool {
    let runner = worker.runner;
    if !worker.published {
        return match numbers.below(8) {
            0 => leaves(machine, runner),
            1 | 2 => helps(machine, runner, numbers),
            _ => prepares(machine, worker),
        };
    }
    let part = part_of(machine, runner);
    if part.published.is_some() {
        return machine.goes(runner, EventKind::LoadThunk(Some(worker.descriptor)));
    }
    if part.reads.cells.len() != 0 {
        return leaves(machine, runner);
    }
    plans_next(machine, worker, numbers);
    false
}

/// Makes a step of this runner.
fn turns(
    machine: &mut TwoWorkers,
    workers: &mut [Worker; 2],
    runner: u32,
    numbers: &mut Numbers,
) -> bool {
    let found = match runner {
        0 => stores(machine, &mut workers[0]),
        1 => stores(machine, &mut workers[1]),
        _ => Some(machine.kinds(runner)),
    };
    let Some(kinds) = found else {
        return true;
    };
    if kinds & 1 << 26 == 0 {
        return goes_on(machine, runner, kinds);
    }
    if kinds & 1 != 0 {
        return rests(machine, runner, numbers);
    }
    match runner {
        0 => walks(machine, &mut workers[0], numbers),
        1 => walks(machine, &mut workers[1], numbers),
        _ => helps(machine, runner, numbers),
    }
}

/// Whether the word is the plain run's, where the node that it made in slot 0 is in whatever slot.
fn is_like(word: u64, plain: u64, is_node: bool) -> bool {
    if is_node {
        word != 0 && word >> 32 == plain >> 32
    } else {
        word == plain
    }
}

/// Whether the section made a node, by its plain run.
fn makes(section: &Section) -> bool {
    section.plain.trail.words.len() == 2 && section.thunk.form == 102
}

/// Whether the cells are those that the plain run left.
fn has_cells(machine: &TwoWorkers, section: &Section) -> bool {
    machine.cell(1) == section.plain.number
        && is_like(
            machine.cell(2).bits(),
            section.plain.link.bits(),
            makes(section),
        )
}

/// Whether these agreed words are the plain run's.
fn has_trail(words: &[u64], section: &Section) -> bool {
    let plain = section.plain.trail.words.as_slice();
    if words.len() != plain.len() {
        return false;
    }
    for log in 0..plain.len() {
        if !is_like(words[log], plain[log], log == 1 && makes(section)) {
            return false;
        }
    }
    true
}

/// Whether the log of its descriptor is the plain run's trail, with no word behind it: the test structure's sections
/// agree on fewer words than a descriptor has room for.
fn has_log(machine: &TwoWorkers, section: &Section) -> bool {
    let plain = section.plain.trail.words.as_slice();
    for log in 0..PART_WORDS as u32 {
        let agreed = plain.get(log as usize).copied().unwrap_or(0);
        let word = machine.log_word(section.descriptor, log);
        if !is_like(word, agreed, log == 1 && makes(section)) {
            return false;
        }
    }
    true
}

/// Whether the link leads to the node that the log agrees on, where the section made one.
fn has_node(machine: &TwoWorkers, section: &Section) -> bool {
    if !makes(section) {
        return true;
    }
    u64::from(machine.cell(2).value()) == machine.log_word(section.descriptor, 1)
}

/// Whether the run is of one of these sections, and ended as its plain run.
fn ends_alike(run: &Finished, sections: &[Section]) -> bool {
    for section in sections {
        if run.descriptor == section.descriptor && run.word == section.thunk.word {
            return run.outcome == section.plain.outcome && has_trail(run.trail.as_slice(), section);
        }
    }
    false
}

/// Whether each of these runs ended as the plain run of its section.
fn end_alike(finished: &[Finished], sections: &[Section]) -> bool {
    for run in finished {
        if !ends_alike(run, sections) {
            return false;
        }
    }
    true
}

/// The worker with this number, before its first section.
fn begins(runner: u32) -> Worker {
    Worker {
        runner,
        thunk: Thunk {
            form: 101,
            request: runner.saturating_mul(OWN),
            lock: 0,
            word: Word::pack(0, 1),
            operands: [7, 0, 0, 0, 0, 0, 0, 0],
        },
        descriptor: runner.saturating_mul(OWN),
        next: 0,
        again: false,
        looked: false,
        published: false,
    }
}

/// The request with this number, in this trace.
fn request(trace: u32, number: u32) -> Request
    ensures { result ≡ record { trace = trace; number = number; op = Get 1 } }
{
    let op = Op::Get(1);
    Request { trace, number, op }
}

/// Eight requests in each of two traces.
fn requests() -> [Request; 16]
    ensures { AreInOrder result 64 }
{
    [
        request(0, 0),
        request(0, 1),
        request(0, 2),
        request(0, 3),
        request(0, 4),
        request(0, 5),
        request(0, 6),
        request(0, 7),
        request(1, 8),
        request(1, 9),
        request(1, 10),
        request(1, 11),
        request(1, 12),
        request(1, 13),
        request(1, 14),
        request(1, 15),
    ]
}

/// The section that the worker has just published, with its plain run from the words that stand now.
fn published(alloc: Global, machine: &TwoWorkers, worker: &Worker) -> Result<Section, AllocError> {
    let thunk = worker.thunk;
    let plain = plain_run(
        alloc,
        thunk.form,
        thunk.operands[0],
        machine.cell(1),
        machine.cell(2),
    )?;
    Ok(Section {
        descriptor: worker.descriptor,
        thunk,
        plain,
    })
}

/// After a worker's or the keeper's turn: a section that it published is run in one go, and one
/// that it released is compared.
fn agrees(
    alloc: Global,
    machine: &TwoWorkers,
    worker: &Worker,
    was_held: bool,
    sections: &mut Vec<Section>,
) -> Result<bool, AllocError> {
    let is_held = machine.cell(0).value() != 0;
    if is_held && !was_held {
        sections.push(published(alloc, machine, worker)?)?;
    }
    if is_held || !was_held {
        return Ok(true);
    }
    match sections.last() {
        None => Ok(false),
        Some(section) => Ok(
            has_cells(machine, section) && has_log(machine, section) && has_node(machine, section),
        ),
    }
}

/// What a schedule made: its events, sections and finished runs, how many runs were of another runner's section, how
/// many descriptors its sweeps freed, and whether all runs agreed with the plain runs.
#[derive(Clone, Copy)]
struct Seen {
    events: u32,
    sections: usize,
    runs: usize,
    helped: usize,
    freed: usize,
    agrees: bool,
}

/// How many of the runs that this runner finished were of another runner's section.
fn helped(finished: &[Finished], runner: u32) -> usize {
    let mut count = 0usize;
    for run in finished {
        if run.descriptor / OWN != runner {
            count = count.saturating_add(1);
        }
    }
    count
}

/// How many descriptors of the workers are retired, and not free again.
fn retired(machine: &TwoWorkers) -> usize {
    let first = machine.part(0).descriptors.limbo.len();
    first.saturating_add(machine.part(1).descriptors.limbo.len())
}

/// What stands at the end of a schedule, which made so many events and freed so many descriptors, and of which each
/// release agreed or didn't.
fn at_end(
    machine: &TwoWorkers,
    sections: &[Section],
    events: u32,
    freed: usize,
    agrees: bool,
) -> Seen {
    let first = machine.part(0).records.finished.as_slice();
    let second = machine.part(1).records.finished.as_slice();
    let keeper = machine.part(2).records.finished.as_slice();
    Seen {
        events,
        sections: sections.len(),
        runs: first
            .len()
            .saturating_add(second.len())
            .saturating_add(keeper.len()),
        helped: helped(first, 0)
            .saturating_add(helped(second, 1))
            .saturating_add(helped(keeper, 2)),
        freed,
        agrees: agrees
            && end_alike(first, sections)
            && end_alike(second, sections)
            && end_alike(keeper, sections),
    }
}

/// A schedule of so many events from the first state on, with numbers from this seed.
fn schedule(alloc: Global, requests: &[Request], seed: u64) -> Result<Seen, AllocError>
    requires { AreInOrder requests.now 64 }
{
    let mut machine = TwoWorkers::new(alloc, requests)?;
    let mut workers = [begins(0), begins(1)];
    let mut sections = Vec::new(alloc);
    let mut numbers = Numbers { state: seed };
    let mut events = 0u32;
    let mut freed = 0usize;
    let mut all_agree = true;
    for _ in 0..TURNS {
        if events >= EVENTS {
            break;
        }
        let runner = numbers.runner();
        let was_held = machine.cell(0).value() != 0;
        let were_retired = retired(&machine);
        if turns(&mut machine, &mut workers, runner, &mut numbers) {
            events = events.saturating_add(1);
        }
        freed = freed.saturating_add(were_retired.saturating_sub(retired(&machine)));
        let worker = if runner == 0 { workers[0] } else { workers[1] };
        all_agree &= agrees(alloc, &machine, &worker, was_held, &mut sections)?;
    }
    Ok(at_end(&machine, &sections, events, freed, all_agree))
}

#[test]
fn random_schedules_agree_with_the_plain_runs(rt: HostRuntime) -> Result<(), AllocError> {
    let requests = requests();
    for seed in 0..SCHEDULES {
        let seen = schedule(rt.alloc(), &requests, seed)?;
        assert!(rt; seen.events == EVENTS);
        assert!(rt; seen.sections > 1 && seen.runs > 1);
        assert!(rt; seen.helped > 0 && seen.freed > 0);
        assert!(rt; seen.agrees);
    }
    Ok(())
}
