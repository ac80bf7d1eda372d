// The command `run`, and its report.
ghost use Rattle.std.specs.Prelude.{◌≡◌, ◌≢◌, ◌≤◌, None, length};
ghost use Rattle.machine_states.specs.map_history.specs.Requests.{AreInOrder};
ghost use Rattle.threaded_runs.specs.Runs.{AreServed};
ghost use Rattle.command_line.specs.Options.{AreInRange, are_free};
ghost use Rattle.flock_tool.specs.Commands.{RunEnds};
ghost use Rattle.flock_tool.specs.End.{Tells, stop_line, stop_status};
ghost use Rattle.flock_tool.specs.Finish.{finish_by, finish_status, TellsFinish};
ghost use Rattle.flock_tool.specs.Gates.{GatesAreOwn};
ghost use Rattle.flock_tool.specs.Runs.{words_in, answers_in, meaning_of, waits_out, HasReported, IsRunStatus};
ghost use Rattle.flock_tool.specs.Streams.{gating, stream};

use crate::finish::{Finish, finish_of, status_of_finish, tell_finish};
use crate::plan::{Plan, plan_of};
use crate::ran::Ran;
use crate::run::{answers, print_run, run_is_allowed, run_plan};
use crate::status::{Stop, status_of, tell};
use command_line::RunOptions;
use command_line::trace_reader::{Source, TraceError};
use printed_traces::report_text::Sink;
use std::alloc::Global;
use std::sync::Wait;
use std::thread::Threads;
use threaded_runs::runner_gate::Gates;

/// Runs the text of the source with these options, and prints its report.
pub fn run_command<T: Threads + Wait + Sync, R: Source, K: Sink, F: Sink, G: Gates>(
    rt: &T,
    alloc: Global,
    options: RunOptions,
    source: &mut R,
    sink: &mut K,
    faults: &mut F,
    gates: &mut G,
) -> (u8, Option<Ran>)
    requires { AreInRange options }
    ensures ends { RunEnds options result
        (stream (R.left source.old) (R.left source.new) (R.faults source.old) (R.faults source.new))
        (stream (K.held sink.old) (K.held sink.new) (K.faults sink.old) (K.faults sink.new))
        (stream (F.held faults.old) (F.held faults.new) (F.faults faults.old) (F.faults faults.new))
        (gating (G.halts gates.old) (G.halts gates.new) (G.asks gates.old) (G.asks gates.new)
        (G.plans gates.old) (G.plans gates.new) (G.planned gates.old) (G.planned gates.new)
        (G.returned gates.old) (G.returned gates.new)) }
    ensures gates { GatesAreOwn G.Gate.halts G.Gate.asks options.halts (are_free options.reads) result
        (gating (G.halts gates.old) (G.halts gates.new) (G.asks gates.old) (G.asks gates.new)
        (G.plans gates.old) (G.plans gates.new) (G.planned gates.old) (G.planned gates.new)
        (G.returned gates.old) (G.returned gates.new)) }
    ensures reads { result.0 ≢ 8 → R.faults source.new ≡ R.faults source.old }
    ensures writes { result.0 ≢ 9 → K.faults sink.new ≡ K.faults sink.old }
    ensures silent { (IsRunStatus result.0 → ⊥) → K.held sink.new ≡ K.held sink.old }
    ensures statuses { result.0 ≤ 9 }
{
    let plan = match plan_of(alloc, options, source) {
        Ok(plan) => plan,
        Err(stop) => return refuse(stop, faults),
    };
    let Ok(ran) = run_plan(rt, alloc, &plan, gates) else {
        return refuse(Stop::Text(TraceError::Memory), faults);
    };
    report(alloc, &plan, ran, sink, faults)
}

/// Tells why nothing came to its end.
pub fn refuse<F: Sink>(stop: Stop, faults: &mut F) -> (u8, Option<Ran>)
    ensures status { result.0 ≡ stop_status stop }
    ensures none { result.1 ≡ None }
    ensures told { Tells (stop_line stop) (F.held faults.old) (F.held faults.new) (F.faults faults.old)
        (F.faults faults.new) }
{
    tell(stop, faults);
    (status_of(stop), None)
}

/// How a run ended, by what its runners answered.
pub fn finish_of_run(ran: &Ran, unserved: u32) -> Finish
    requires { length (answers_in ran.now) ≤ 16 }
    ensures { result ≡ finish_by (answers_in ran.now) unserved }
{
    finish_of(answers(ran), unserved)
}

// Tells how a run ended, and gives the status.
fn tell_run<F: Sink>(ran: &Ran, unserved: u32, faults: &mut F) -> u8
    requires { length (answers_in ran.now) ≤ 16 }
    ensures status { result ≡ finish_status (finish_by (answers_in ran.now) unserved) }
    ensures told { TellsFinish (finish_by (answers_in ran.now) unserved)
        (stream (F.held faults.old) (F.held faults.new) (F.faults faults.old) (F.faults faults.new)) }
{
    let finish = finish_of_run(ran, unserved);
    tell_finish(&finish, faults);
    status_of_finish(&finish)
}

// Prints the report of a run, and tells how it ended.
fn report<K: Sink, F: Sink>(
    alloc: Global,
    plan: &Plan,
    ran: Ran,
    sink: &mut K,
    faults: &mut F,
) -> (u8, Option<Ran>)
    requires requests { (words_in ran).requests ≡ plan.now.traces.requests }
    requires ordered { AreInOrder plan.now.traces.requests plan.now.traces.count }
    requires served { AreServed (meaning_of ran) (words_in ran)
        (waits_out plan.now.options.halts plan.now.layout.runners) (are_free plan.now.options.reads)
        (answers_in ran) }
    ensures reported { HasReported ran plan.now.traces.count
        (waits_out plan.now.options.halts plan.now.layout.runners) result
        (stream (K.held sink.old) (K.held sink.new) (K.faults sink.old) (K.faults sink.new))
        (stream (F.held faults.old) (F.held faults.new) (F.faults faults.old) (F.faults faults.new)) }
{
    run_is_allowed(&ran);
    let printed = print_run(alloc, plan, &ran, sink);
    match printed {
        Ok(unserved) => {
            let status = tell_run(&ran, unserved, faults);
            (status, Some(ran))
        }
        Err(Stop::WriteFault) => {
            tell(Stop::WriteFault, faults);
            (status_of(Stop::WriteFault), Some(ran))
        }
        Err(stop) => refuse(stop, faults),
    }
}
