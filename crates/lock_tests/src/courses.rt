//! A worker's requests from plan to answer.
ghost use Rattle.std.specs.Prelude.{◌≡◌, ◌+◌, ◌<◌, length, true, Some, IfOk, IfSome, slice_get};
ghost use Rattle.machine_states.specs.runner_parts.specs.Tests.{is_answered};
ghost use Rattle.settled_tables.specs.closed_words.specs.version_words.specs.TableState.{IsOf};
ghost use Rattle.hash_table.specs.try_lock.specs.epoch_slots.specs.Collects.{IsTidy};
ghost use Rattle.hash_table.specs.try_lock.specs.declared.section.Section.{Section};
ghost use Rattle.lock_attempts.specs.attempts.specs.Reclaims.{IsRested};
ghost use Rattle.lock_tests.specs.Workers.{MayRun, MayRunFor};
ghost use Rattle.lock_tests.specs.Asked.{KnowsOthers, IsDue, HasServed, IsOnlyWorker};
ghost use Rattle.lock_tests.specs.declared.offers.Offer.TheVariants.{Published};
ghost use Rattle.lock_tests.specs.declared.courses.Served.TheVariants as served;
ghost use Rattle.lock_tests.specs.declared.courses.Course.{Course as Came};

use crate::offers::Offer;
use crate::turns::{Turn, run_own};
use hash_table::lock_walks::Planner;
use hash_table::lock_walks::epoch_slots::{Short, collect, enter, sweep};
use hash_table::lock_walks::section_runs::RunEnd;
use hash_table::lock_walks::try_lock::{Planned, publish};
use hash_table::lock_walks::version_words::{FlockTable, Runner};
use lock_attempts::attempts::reserve_slots;
use machine_states::body_terms::Steps;
use machine_states::map_history::{Reply, Request};
use machine_states::structure_laws::Structure;
use settled_tables::settling::runner_gate::Free;
use std::alloc::{AllocError, Global};

/// What came of a request.
#[derive(Drop, Debug)]
pub struct Course {
    /// How many loads its plan made.
    pub loads: u64,
    /// The run of its section.
    pub turn: Turn,
    /// Its stamp word and its reply word.
    pub entry: (u64, u64),
}

impl Course {
    /// As a text: the steps of its section, and its reply or else its reply word.
    fn shown(&self, alloc: Global) -> Result<String, AllocError> {
        let (steps, word) = (self.turn.steps, self.entry.1);
        match Reply::from_word(word) {
            Some(reply) => format!(in alloc; "{steps:?} {reply:?}"),
            None => format!(in alloc; "{steps:?} {word:?}"),
        }
    }
}

/// How far a worker came with its next request.
#[derive(Drop, Debug)]
pub enum Served {
    /// It is answered.
    Answered(Course),
    /// Too few slots were free, and nothing was tried.
    Short(Short),
    /// The structure doesn't serve it, its plan or its publication was refused, or its section had no effect.
    Refused,
}

impl Served {
    /// As a text: the course of the request, or which slots were too few.
    pub fn shown(&self, alloc: Global) -> Result<String, AllocError> {
        match self {
            Served::Answered(course) => course.shown(alloc),
            other => format!(in alloc; "{other:?}"),
        }
    }
}

/// Enters, plans the request, and publishes its section, with the number of loads of the plan. No offer is made where
/// the plan is refused.
pub fn plan_and_publish<S: Planner>(
    table: &FlockTable<S>,
    runner: Runner<S>,
    request: &Request,
) -> (Runner<S>, Offer, u64)
    requires own { IsOf table.now runner }
    requires due { IsDue request.now runner }
    requires served { (S.planning table.now.structure).serves request.now.op ≡ true }
    ensures own { IsOf table.now result.0 }
    ensures number { result.0.number ≡ runner.number }
    ensures known { result.0.part.records.known ≡ runner.part.records.known }
    ensures published { (section : Section) → result.1 ≡ Published section
        → MayRun (S.meaning table.now.structure) section result.0 }
    ensures asked { (section : Section) → result.1 ≡ Published section
        → MayRunFor (S.meaning table.now.structure) request.now.number section result.0 }
{
    let mut steps = Steps::<()>::new();
    let runner = enter(table, runner);
    let (runner, planned) = table
        .structure()
        .plan(table, runner, request, &mut Free::new(), &mut steps);
    let Planned::Thunk(thunk) = planned else {
        return (runner, Offer::None, steps.count);
    };
    let (runner, answer) = publish(table, runner, &thunk);
    match answer {
        Ok(section) => (runner, Offer::Published(section), steps.count),
        Err(refused) => (runner, Offer::Refused(refused), steps.count),
    }
}

/// The stamp word and the reply word of a request; None where one of them is 0.
fn read_entry<S: Structure>(
    table: &FlockTable<S>,
    runner: Runner<S>,
    number: u32,
) -> (Runner<S>, Option<(u64, u64)>)
    requires own { IsOf table.now runner }
    requires tidy { IsTidy runner }
    requires request { number < length table.now.requests }
    ensures own { IsOf table.now result.0 }
    ensures number { result.0.number ≡ runner.number }
    ensures tidy { IsTidy result.0 }
    ensures others { KnowsOthers number runner.part.records.known result.0.part.records.known }
    ensures answered { IfSome result.1 (λ _. is_answered result.0.part.records.known number ≡ true) }
{
    let (runner, stamp) = table.load_entry(runner, number, false);
    let (runner, reply) = table.load_entry(runner, number, true);
    if stamp == 0 || reply == 0 {
        return (runner, None);
    }
    (runner, Some((stamp, reply)))
}

/// Serves the worker's next request: plans it, publishes its section, runs it, lets its guard go, leaves, and reads the
/// request's words.
fn serve_due<S: Planner>(
    table: &FlockTable<S>,
    runner: Runner<S>,
    request: &Request,
) -> (Runner<S>, Served)
    requires own { IsOf table.now runner }
    requires due { IsDue request.now runner }
    requires before { HasServed request.now.number runner }
    requires served { (S.planning table.now.structure).serves request.now.op ≡ true }
    ensures own { IsOf table.now result.0 }
    ensures number { result.0.number ≡ runner.number }
    ensures after { (course : Came) → result.1 ≡ served.Answered course → HasServed (request.now.number + 1) result.0 }
{
    let (runner, offered, loads) = plan_and_publish(table, runner, request);
    let Offer::Published(section) = offered else {
        return (runner, Served::Refused);
    };
    let (runner, turn) = run_own(table, runner, section, &mut Free::new());
    match &turn.end {
        RunEnd::Done(_, _) => {
            let (runner, entry) = read_entry(table, runner, request.number);
            match entry {
                Some(entry) => (runner, Served::Answered(Course { loads, turn, entry })),
                None => (runner, Served::Refused),
            }
        }
        RunEnd::Halted => (runner, Served::Refused),
    }
}

/// One scan of the announcements, and then one sweep of the guard words where no descriptor is free.
pub fn scan_and_sweep<S: Structure>(table: &FlockTable<S>, runner: Runner<S>) -> Runner<S>
    requires own { IsOf table.now runner }
    requires tidy { IsTidy runner }
    ensures own { IsOf table.now result }
    ensures rested { IsRested runner result }
{
    let runner = collect(table, runner);
    if runner.free_descriptors().is_empty() {
        sweep(table, runner)
    } else {
        runner
    }
}

/// The worker collects and sweeps, and serves its next request where the structure serves it, and two node slots and a
/// descriptor are free.
fn serve_next<S: Planner>(
    table: &FlockTable<S>,
    runner: Runner<S>,
    request: &Request,
) -> (Runner<S>, Served)
    requires own { IsOf table.now runner }
    requires alone { IsOnlyWorker runner }
    requires request { slice_get table.now.requests request.now.number ≡ Some request.now }
    requires before { HasServed request.now.number runner }
    ensures own { IsOf table.now result.0 }
    ensures number { result.0.number ≡ runner.number }
    ensures after { (course : Came) → result.1 ≡ served.Answered course → HasServed (request.now.number + 1) result.0 }
{
    if !table.structure().serves(request.op) {
        return (runner, Served::Refused);
    }
    let runner = scan_and_sweep(table, runner);
    match reserve_slots(runner) {
        Ok(runner) => serve_due(table, runner, request),
        Err((runner, short)) => (runner, Served::Short(short)),
    }
}

/// What came of the requests of a table's only worker, one after the other, as far as it came: at a refusal it stops,
/// which is the last of them then.
pub fn serve_in_turn<S: Planner>(
    table: &FlockTable<S>,
    alloc: Global,
    runner: Runner<S>,
    requests: &[Request],
) -> Result<(Runner<S>, Vec<Served>), AllocError>
    requires own { IsOf table.now runner }
    requires alone { IsOnlyWorker runner }
    requires all { requests.now ≡ table.now.requests }
    requires before { HasServed 0 runner }
    ensures own { IfOk result (λ x. IsOf table.now x.0) }
    ensures number { IfOk result (λ x. x.0.number ≡ runner.number) }
{
    let mut runner = runner;
    let mut courses = Vec::new(alloc);
    for request in requests {
        let (next, served) = serve_next(table, runner, request);
        runner = next;
        match served {
            Served::Answered(course) => courses.push(Served::Answered(course))?,
            last => {
                courses.push(last)?;
                return Ok((runner, courses));
            }
        }
    }
    Ok((runner, courses))
}
