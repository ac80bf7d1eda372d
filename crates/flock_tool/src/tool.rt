// The top call.
ghost use Rattle.std.specs.Prelude.{◌≡◌, ◌≢◌, ◌⊎◌, ◌≤◌, IfErr, IfOk, None};
ghost use Rattle.command_line.specs.Commands.{AreAccepted, HasRanges, IsCommand, texts};
ghost use Rattle.command_line.specs.declared.command.Command.{Command};
ghost use Rattle.flock_tool.specs.Alone.{IsValidAlone, KeepsVersions, NothingStops};
ghost use Rattle.flock_tool.specs.Asks.{AsksFew, AsksOften};
ghost use Rattle.flock_tool.specs.Commands.{Ends, IsNoCommand, NameAnotherTable, RefusedEnds};
ghost use Rattle.flock_tool.specs.Gates.{GatesAreOwn, halts_named};
ghost use Rattle.flock_tool.specs.Reads.{ReadsFirst, reads_freely};
ghost use Rattle.flock_tool.specs.Runs.{IsRunStatus};
ghost use Rattle.flock_tool.specs.Streams.{gating, stream};
ghost use Rattle.flock_tool.specs.Valid.{IsValid, IsWhole, NothingFails};

use crate::checking::check_command;
use crate::generation::gen_command;
use crate::load::load_command;
use crate::ran::Ran;
use crate::report::{refuse, run_command};
use crate::status::Stop;
use command_line::trace_reader::{Source, TraceError};
use command_line::{Command, read_words, words_mean_one_command};
use printed_traces::report_text::Sink;
use std::alloc::Global;
use std::sync::Wait;
use std::thread::Threads;
use threaded_runs::runner_gate::Gates;

/// The whole program. With the command `run` it reads a trace text from the source, serves its
/// requests on one table with a thread for each runner where one can be made, and appends the report
/// to the sink. With `gen` it appends a trace text with generated requests, and with `load` it serves
/// generated requests and appends how often each reply came. With `check` it reads a text, a line
/// `report` and a report, and appends whether the report is legal. What goes wrong is told in one
/// line to `faults`, whose own failures change no status. Where a run came to its end the closed
/// words of its table come back, with what each runner answered.
///
/// The status is 0 where all went well and every request was answered or the report is legal, 1 where
/// a gate halted its runner and a request is unserved, 2 where the words are refused or name another
/// table than one that serves the text, as the tree and the list do for a text of format 3, 3 where
/// the text isn't in the grammar or has no report to be checked, 4 where an input or what is to be
/// generated is past a limit or the runners would have too many node slots, 5 where a runner lacked
/// slots, 6 where one lacked versions, 7 for want of memory, 8 where the source failed, 9 where the
/// sink did, and 10 where a report that is checked isn't legal. The report of `run` is printed whole at 0, 1, 5 and 6,
/// the verdict of `check` at 0 and 10, the other texts at 0 alone; at 9 the sink holds a part, and
/// otherwise nothing is added to it.
///
/// It may wait for threads, so its promises hold if it returns (Ben-David, Blelloch, Wei, *Lock-free
/// locks revisited*, 2022).
pub fn flock<'a, T: Threads + Wait + Sync, R: Source, K: Sink, F: Sink, G: Gates>(
    rt: &T,
    alloc: Global,
    words: &'a [&'a str],
    source: &mut R,
    sink: &mut K,
    faults: &mut F,
    gates: &mut G,
) -> (u8, Option<Ran>)
    // What each command leaves.
    ensures commands { (command : Command) → IsCommand (texts words.now) command → Ends command result
        (stream (R.left source.old) (R.left source.new) (R.faults source.old) (R.faults source.new))
        (stream (K.held sink.old) (K.held sink.new) (K.faults sink.old) (K.faults sink.new))
        (stream (F.held faults.old) (F.held faults.new) (F.faults faults.old) (F.faults faults.new))
        (gating (G.halts gates.old) (G.halts gates.new) (G.asks gates.old) (G.asks gates.new)
        (G.plans gates.old) (G.plans gates.new) (G.planned gates.old) (G.planned gates.new)
        (G.returned gates.old) (G.returned gates.new)) }
    // Completeness: what is valid is done whole, with each request answered, where nothing fails and
    // versions are left, or memory is wanting.
    ensures complete { (command : Command) → IsCommand (texts words.now) command → IsValid command (R.left source.old)
        → NothingFails result.1
        (stream (R.left source.old) (R.left source.new) (R.faults source.old) (R.faults source.new))
        (stream (K.held sink.old) (K.held sink.new) (K.faults sink.old) (K.faults sink.new))
        (gating (G.halts gates.old) (G.halts gates.new) (G.asks gates.old) (G.asks gates.new)
        (G.plans gates.old) (G.plans gates.new) (G.planned gates.old) (G.planned gates.new)
        (G.returned gates.old) (G.returned gates.new))
        → IsWhole result ⊎ (result.0 ≡ 7) }
    // And with one runner, whose slots and versions are used again, so many are enough.
    ensures alone { (command : Command) → IsCommand (texts words.now) command → IsValidAlone command (R.left source.old)
        → NothingStops (stream (R.left source.old) (R.left source.new) (R.faults source.old) (R.faults source.new))
        (stream (K.held sink.old) (K.held sink.new) (K.faults sink.old) (K.faults sink.new))
        (gating (G.halts gates.old) (G.halts gates.new) (G.asks gates.old) (G.asks gates.new)
        (G.plans gates.old) (G.plans gates.new) (G.planned gates.old) (G.planned gates.new)
        (G.returned gates.old) (G.returned gates.new))
        → IsWhole result ⊎ (result.0 ≡ 7) }
    ensures versions { KeepsVersions result }
    // And its gate is asked few times, also where it halts.
    ensures asks { AsksFew result
        (gating (G.halts gates.old) (G.halts gates.new) (G.asks gates.old) (G.asks gates.new)
        (G.plans gates.old) (G.plans gates.new) (G.planned gates.old) (G.planned gates.new)
        (G.returned gates.old) (G.returned gates.new)) }
    // However many runners there are, their gates are asked for each request that is served.
    ensures often { (command : Command) → IsCommand (texts words.now) command → AsksOften (reads_freely command) result
        (gating (G.halts gates.old) (G.halts gates.new) (G.asks gates.old) (G.asks gates.new)
        (G.plans gates.old) (G.plans gates.new) (G.planned gates.old) (G.planned gates.new)
        (G.returned gates.old) (G.returned gates.new)) }
    // Each runner had the gate that was given out for it: it was halted exactly where this gate halted.
    ensures gates { (command : Command) → IsCommand (texts words.now) command
        → GatesAreOwn G.Gate.halts G.Gate.asks (halts_named command) (reads_freely command) result
        (gating (G.halts gates.old) (G.halts gates.new) (G.asks gates.old) (G.asks gates.new)
        (G.plans gates.old) (G.plans gates.new) (G.planned gates.old) (G.planned gates.new)
        (G.returned gates.old) (G.returned gates.new)) }
    // Where reads take no lock, each `get` that one runner has served has a read's stamp.
    ensures odd { (command : Command) → IsCommand (texts words.now) command
        → ReadsFirst (reads_freely command) result }
    // All words but those of a command are refused, and these only where they name another table than
    // one that serves the text.
    ensures accepted { AreAccepted (texts words.now) → result.0 ≡ 2
        → NameAnotherTable (texts words.now) (R.left source.old) }
    ensures words { (AreAccepted (texts words.now) → ⊥) → RefusedEnds result
        (stream (R.left source.old) (R.left source.new) (R.faults source.old) (R.faults source.new))
        (stream (K.held sink.old) (K.held sink.new) (K.faults sink.old) (K.faults sink.new))
        (stream (F.held faults.old) (F.held faults.new) (F.faults faults.old) (F.faults faults.new))
        (gating (G.halts gates.old) (G.halts gates.new) (G.asks gates.old) (G.asks gates.new)
        (G.plans gates.old) (G.plans gates.new) (G.planned gates.old) (G.planned gates.new)
        (G.returned gates.old) (G.returned gates.new)) }
    // Without a run nothing comes back.
    ensures none { (IsRunStatus result.0 → ⊥) → result.1 ≡ None }
    // No failed read ends but at 8, and no failed write but at 9.
    ensures reads { result.0 ≢ 8 → R.faults source.new ≡ R.faults source.old }
    ensures writes { result.0 ≢ 9 → K.faults sink.new ≡ K.faults sink.old }
    ensures silent { (IsRunStatus result.0 → ⊥) → result.0 ≢ 10 → K.held sink.new ≡ K.held sink.old }
    ensures statuses { result.0 ≤ 10 }
    // A report that isn't legal is the one cause of 10, and it is `check` that finds it.
    ensures checks { result.0 ≡ 10 → IsCommand (texts words.now) Command.Check }
{
    words_mean_one_command();
    let command = match command_of(alloc, words) {
        Ok(command) => command,
        Err(stop) => return refuse(stop, faults),
    };
    match command {
        Command::Run(options) => run_command(rt, alloc, options, source, sink, faults, gates),
        Command::Gen(plan) => (gen_command(alloc, &plan, sink, faults), None),
        Command::Load(load) => load_command(rt, alloc, load, sink, faults, gates),
        Command::Check => (check_command(alloc, source, sink, faults), None),
    }
}

// The command that the words are. Refused where they are none, and for want of memory.
fn command_of<'a>(alloc: Global, words: &'a [&'a str]) -> Result<Command, Stop>
    ensures read { IfOk result (λ command. IsCommand (texts words.now) command) }
    ensures ranges { IfOk result HasRanges }
    ensures refused { IfErr result (IsNoCommand (texts words.now)) }
{
    match read_words(alloc, words) {
        Ok(Some(command)) => Ok(command),
        Ok(None) => Err(Stop::Words),
        Err(_) => Err(Stop::Text(TraceError::Memory)),
    }
}
