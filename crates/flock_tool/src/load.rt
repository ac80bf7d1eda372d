// The command `load`.
ghost use Rattle.std.specs.Prelude.{◌≡◌, IfOk, length, true};
ghost use Rattle.machine_states.specs.map_history.specs.Requests.{AreInOrder};
ghost use Rattle.machine_states.specs.table_words.specs.Limits.{IsWithinLimits};
ghost use Rattle.threaded_runs.specs.closed_words.specs.Histories.{HoldsNoLock};
ghost use Rattle.version_words.specs.machine_invariant.specs.After.{AreAllowed};
ghost use Rattle.threaded_runs.specs.Runs.{AreServed};
ghost use Rattle.command_line.specs.Generated.{AreLoadRanges};
ghost use Rattle.command_line.specs.Options.{are_free};
ghost use Rattle.flock_tool.specs.Commands.{LoadRuns};
ghost use Rattle.flock_tool.specs.Gates.{GatesAreOwn};
ghost use Rattle.flock_tool.specs.Loads.{EndsLoad, HasLoaded, IsCounted};
ghost use Rattle.flock_tool.specs.Runs.{words_in, answers_in, meaning_of, waits_out};
ghost use Rattle.flock_tool.specs.Streams.{gating, stream};

use crate::finish::{is_whole, status_of_finish, tell_finish};
use crate::plan::{Plan, load_plan};
use crate::ran::{Ran, on_table};
use crate::report::{finish_of_run, refuse};
use crate::run::{run_is_allowed, run_plan, size_of};
use crate::status::{Stop, status_of, tell};
use command_line::LoadOptions;
use command_line::trace_reader::TraceError;
use hash_table::lock_walks::Planner;
use load_counts::{Tally, print_counts, tally_words};
use printed_traces::report_text::Sink;
use std::alloc::{AllocError, Global};
use std::sync::Wait;
use std::thread::Threads;
use threaded_runs::runner_gate::Gates;
use version_words::Words;

/// What the closed words of a run come to.
#[derive(Clone, Copy, Debug, PartialEq, Eq)]
pub struct Counted {
    /// The replies, and how many requests are unserved.
    pub tally: Tally,
    /// How many pairs the words hold.
    pub size: u32,
}

/// Runs generated requests with these options, and prints how often each reply came where each request is served.
pub fn load_command<T: Threads + Wait + Sync, K: Sink, F: Sink, G: Gates>(
    rt: &T,
    alloc: Global,
    load: LoadOptions,
    sink: &mut K,
    faults: &mut F,
    gates: &mut G,
) -> (u8, Option<Ran>)
    requires { AreLoadRanges load }
    ensures runs { LoadRuns load result
        (stream (K.held sink.old) (K.held sink.new) (K.faults sink.old) (K.faults sink.new))
        (stream (F.held faults.old) (F.held faults.new) (F.faults faults.old) (F.faults faults.new))
        (gating (G.halts gates.old) (G.halts gates.new) (G.asks gates.old) (G.asks gates.new)
        (G.plans gates.old) (G.plans gates.new) (G.planned gates.old) (G.planned gates.new)
        (G.returned gates.old) (G.returned gates.new)) }
    ensures gates { GatesAreOwn G.Gate.halts G.Gate.asks load.run.halts (are_free load.run.reads) result
        (gating (G.halts gates.old) (G.halts gates.new) (G.asks gates.old) (G.asks gates.new)
        (G.plans gates.old) (G.plans gates.new) (G.planned gates.old) (G.planned gates.new)
        (G.returned gates.old) (G.returned gates.new)) }
{
    let plan = match load_plan(alloc, load) {
        Ok(plan) => plan,
        Err(stop) => return refuse(stop, faults),
    };
    let Ok(ran) = run_plan(rt, alloc, &plan, gates) else {
        return refuse(Stop::Text(TraceError::Memory), faults);
    };
    report_load(alloc, &plan, ran, sink, faults)
}

// Counts a closed table.
fn count_on<S: Planner>(
    alloc: Global,
    words: &Words<S>,
    requests: u32,
) -> Result<Counted, AllocError>
    requires count { requests ≡ length words.now.requests }
    requires map { (S.meaning words.now.structure).is_map ≡ true }
    requires free { HoldsNoLock (S.meaning words.now.structure) words.now }
    ensures { IfOk result (IsCounted (S.meaning words.now.structure) words.now) }
{
    let size = size_of(alloc, words)?;
    let tally = tally_words(alloc, words, requests)?;
    Ok(Counted { tally, size })
}

// Counts the closed words of a run of so many requests.
fn count_run(alloc: Global, ran: &Ran, requests: u32) -> Result<Counted, AllocError>
    requires count { requests ≡ length (words_in ran.now).requests }
    requires free { HoldsNoLock (meaning_of ran.now) (words_in ran.now) }
    ensures { IfOk result (IsCounted (meaning_of ran.now) (words_in ran.now)) }
{
    on_table!(ran, (words, _) => count_on(alloc, words, requests))
}

// Counts the closed words of a run, and prints and tells what they come to.
fn report_load<K: Sink, F: Sink>(
    alloc: Global,
    plan: &Plan,
    ran: Ran,
    sink: &mut K,
    faults: &mut F,
) -> (u8, Option<Ran>)
    requires requests { (words_in ran).requests ≡ plan.now.traces.requests }
    requires ordered { AreInOrder plan.now.traces.requests plan.now.traces.count }
    requires served { AreServed (meaning_of ran) (words_in ran)
        (waits_out plan.now.options.halts plan.now.layout.runners) (are_free plan.now.options.reads)
        (answers_in ran) }
    ensures { HasLoaded ran (waits_out plan.now.options.halts plan.now.layout.runners) result
        (stream (K.held sink.old) (K.held sink.new) (K.faults sink.old) (K.faults sink.new))
        (stream (F.held faults.old) (F.held faults.new) (F.faults faults.old) (F.faults faults.new)) }
{
    run_is_allowed(&ran);
    let Ok(counted) = count_run(alloc, &ran, plan.traces.requests.len() as u32) else {
        return refuse(Stop::Text(TraceError::Memory), faults);
    };
    print_load(plan, &counted, ran, sink, faults)
}

// Prints the counts where each request is served, and tells how the run ended.
fn print_load<K: Sink, F: Sink>(
    plan: &Plan,
    counted: &Counted,
    ran: Ran,
    sink: &mut K,
    faults: &mut F,
) -> (u8, Option<Ran>)
    requires requests { (words_in ran).requests ≡ plan.now.traces.requests }
    requires counted { IsCounted (meaning_of ran) (words_in ran) counted.now }
    requires limits { IsWithinLimits (words_in ran).layout }
    requires allowed { AreAllowed (words_in ran).requests }
    requires served { AreServed (meaning_of ran) (words_in ran)
        (waits_out plan.now.options.halts plan.now.layout.runners) (are_free plan.now.options.reads)
        (answers_in ran) }
    ensures { EndsLoad ran (waits_out plan.now.options.halts plan.now.layout.runners) result
        (stream (K.held sink.old) (K.held sink.new) (K.faults sink.old) (K.faults sink.new))
        (stream (F.held faults.old) (F.held faults.new) (F.faults faults.old) (F.faults faults.new)) }
{
    let finish = finish_of_run(&ran, counted.tally.unserved);
    if !is_whole(&finish) {
        tell_finish(&finish, faults);
        return (status_of_finish(&finish), Some(ran));
    }
    let requests = plan.traces.requests.len() as u32;
    match print_counts(requests, &counted.tally.counts, counted.size, sink) {
        Ok(()) => (0, Some(ran)),
        Err(_) => {
            tell(Stop::WriteFault, faults);
            (status_of(Stop::WriteFault), Some(ran))
        }
    }
}
