//! A request's section, from the entry of its worker to the end.
ghost use Rattle.std.specs.Prelude.{◌≡◌, ◌+◌, ◌<◌, ◌≤◌, length, IfSome, IfOk, IfErr};
ghost use Rattle.machine_states.specs.table_words.specs.Places.{attempt_blocks};
ghost use Rattle.table_steps.specs.version_words.specs.TableState.{IsOf};
ghost use Rattle.speed.specs.Scenes.{IsScene};
ghost use Rattle.speed.specs.Workers.{IsBefore, HasRead, MayRun};

use interleave_core::Tray;
use machine_states::body_terms::{Outcome, Steps, Thunk, Word};
use machine_states::table_words::ATTEMPT_BLOCKS;
use runner_gate::Free;
use table_steps::version_words::{FlockTable, Runner};
use try_lock::epoch_slots::{Kind, enter, exit, reserve};
use try_lock::section_runs::RunEnd;
use try_lock::{Section, publish, run_section};

/// The worker, where two node slots, a descriptor and the blocks for two logs are free; else the worker too.
fn with_reserve(worker: Runner<Tray>) -> Result<Runner<Tray>, Runner<Tray>>
    ensures same { IfOk result (λ x. x ≡ worker) }
    ensures nodes { IfOk result (λ x. 2 ≤ length x.part.nodes.free) }
    ensures descriptors { IfOk result (λ x. 1 ≤ length x.part.descriptors.free) }
    ensures blocks { IfOk result (λ x. attempt_blocks ≤ length x.part.blocks.free) }
    ensures else_same { IfErr result (λ x. x ≡ worker) }
{
    let worker = match reserve(worker, Kind::Node, 2) {
        Ok(worker) => worker,
        Err((worker, _)) => return Err(worker),
    };
    let worker = match reserve(worker, Kind::Descriptor, 1) {
        Ok(worker) => worker,
        Err((worker, _)) => return Err(worker),
    };
    match reserve(worker, Kind::Block, ATTEMPT_BLOCKS as u32) {
        Ok(worker) => Ok(worker),
        Err((worker, _)) => Err(worker),
    }
}

/// Enters, and reads the lock.
fn enter_and_read(
    table: &FlockTable<Tray>,
    worker: Runner<Tray>,
    request: u32,
) -> (Runner<Tray>, Word)
    requires own { IsOf table.now worker }
    requires before { IsBefore request worker }
    requires nodes { 2 ≤ length worker.part.nodes.free }
    requires descriptors { 1 ≤ length worker.part.descriptors.free }
    requires blocks { attempt_blocks ≤ length worker.part.blocks.free }
    ensures own { IsOf table.now result.0 }
    ensures number { result.0.number ≡ 0 }
    ensures read { HasRead request result.1 result.0 }
{
    let _ = request;
    let worker = enter(table, worker);
    table.load_cell(worker, 0)
}

/// Publishes the request's section, which stores the number: where the word that was read is free and isn't spent, and
/// still stands.
fn offer(
    table: &FlockTable<Tray>,
    worker: Runner<Tray>,
    request: u32,
    word: Word,
) -> (Runner<Tray>, Option<Section>)
    requires own { IsOf table.now worker }
    requires scene { IsScene table.now }
    requires few { request < 8 }
    requires read { HasRead request word worker }
    ensures own { IsOf table.now result.0 }
    ensures number { result.0.number ≡ 0 }
    ensures published { IfSome result.1 (λ section. MayRun request section result.0) }
{
    if word.value() != 0 || word.version() > table.layout().version_max - 2 {
        return (worker, None);
    }
    let thunk = Thunk {
        form: 101,
        request,
        lock: 0,
        word,
        operands: [7, 0, 0, 0, 0, 0, 0, 0],
    };
    let (worker, answer) = publish(table, worker, &thunk);
    match answer {
        Ok(section) => (worker, Some(section)),
        Err(_) => (worker, None),
    }
}

/// The reply, where the section answered; else 0.
fn reply_of(outcome: Outcome) -> u64 {
    match outcome {
        Outcome::Answered(reply) => reply,
        _ => 0,
    }
}

/// Runs the section to its end, with which its descriptor is retired, lets the guard go, and leaves: the reply, where
/// it came to its end.
fn run_own(
    table: &FlockTable<Tray>,
    worker: Runner<Tray>,
    request: u32,
    section: Section,
) -> (Runner<Tray>, Option<u64>)
    requires own { IsOf table.now worker }
    requires next { MayRun request section worker }
    ensures own { IsOf table.now result.0 }
    ensures number { result.0.number ≡ 0 }
    ensures before { IfSome result.1 (λ _. IsBefore (request + 1) result.0) }
{
    let mut gate = Free::new();
    let mut steps = Steps::<()>::new();
    let (worker, end) = run_section(table, worker, &section, &mut gate, &mut steps);
    match end {
        RunEnd::Done(outcome, _trail) => {
            let worker = table.guard(worker, None);
            let worker = exit(table, worker);
            (worker, Some(reply_of(outcome)))
        }
        RunEnd::Halted => (worker, None),
    }
}

/// Serves the request by a whole section, and gives the reply. None where it wasn't served.
pub fn serve(
    table: &FlockTable<Tray>,
    worker: Runner<Tray>,
    request: u32,
) -> (Runner<Tray>, Option<u64>)
    requires own { IsOf table.now worker }
    requires scene { IsScene table.now }
    requires few { request < 8 }
    requires before { IsBefore request worker }
    ensures own { IsOf table.now result.0 }
    ensures number { result.0.number ≡ 0 }
    ensures before { IfSome result.1 (λ _. IsBefore (request + 1) result.0) }
{
    let worker = match with_reserve(worker) {
        Ok(worker) => worker,
        Err(worker) => return (worker, None),
    };
    let (worker, word) = enter_and_read(table, worker, request);
    match offer(table, worker, request, word) {
        (worker, Some(section)) => run_own(table, worker, request, section),
        (worker, None) => (worker, None),
    }
}
