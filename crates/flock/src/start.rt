// The start of the program: the words of the command line, and the status of `flock`.
ghost use Rattle.std.specs.Prelude.{◌≡◌, ◌≢◌, ◌⊎◌, ◌≤◌, None, IfOk, map, drop, string_bytes};
ghost use Rattle.std.specs.Process.{exit_status};
ghost use Rattle.flock_tool.specs.command_line.specs.Commands.{AreAccepted, IsCommand, texts};
ghost use Rattle.flock_tool.specs.command_line.specs.declared.command.Command.{Command};
ghost use Rattle.flock_tool.specs.Alone.{IsValidAlone, NothingStops};
ghost use Rattle.flock_tool.specs.Commands.{NameAnotherTable, RefusedEnds};
ghost use Rattle.flock_tool.specs.Exits.{Exits};
ghost use Rattle.flock_tool.specs.Runs.{IsRunStatus};
ghost use Rattle.flock_tool.specs.Streams.{gating, stream};

use flock_tool::flock;
use flock_tool::report_text::Sink;
use flock_tool::threaded_runs::runner_gate::Gates;
use flock_tool::trace_reader::Source;
use std::alloc::{AllocError, Global};
use std::env;
use std::io::ErrorKind;
use std::process::ExitCode;
use std::sync::Wait;
use std::thread::Threads;

/// The status for want of memory before the call.
pub const MEMORY: u8 = 7;

/// Runs the command on these streams, and ends with its status. The words of the run are let go.
pub fn run<'a, T: Threads + Wait + Sync, R: Source, K: Sink, F: Sink, G: Gates>(
    rt: &T,
    alloc: Global,
    words: &'a [&'a str],
    source: &mut R,
    sink: &mut K,
    faults: &mut F,
    gates: &mut G,
) -> ExitCode
    // The command ends with this status, as it says of it: what a run left stood behind it, or nothing did.
    ensures commands { (command : Command) → IsCommand (texts words.now) command
        → Exits G.Gate.halts G.Gate.asks command (exit_status result) (R.left source.old)
        (stream (R.left source.old) (R.left source.new) (R.faults source.old) (R.faults source.new))
        (stream (K.held sink.old) (K.held sink.new) (K.faults sink.old) (K.faults sink.new))
        (stream (F.held faults.old) (F.held faults.new) (F.faults faults.old) (F.faults faults.new))
        (gating (G.halts gates.old) (G.halts gates.new) (G.asks gates.old) (G.asks gates.new)
        (G.plans gates.old) (G.plans gates.new) (G.planned gates.old) (G.planned gates.new)
        (G.returned gates.old) (G.returned gates.new)) }
    // With one runner, so many slots and versions are enough.
    ensures alone { (command : Command) → IsCommand (texts words.now) command → IsValidAlone command (R.left source.old)
        → NothingStops (stream (R.left source.old) (R.left source.new) (R.faults source.old) (R.faults source.new))
        (stream (K.held sink.old) (K.held sink.new) (K.faults sink.old) (K.faults sink.new))
        (gating (G.halts gates.old) (G.halts gates.new) (G.asks gates.old) (G.asks gates.new)
        (G.plans gates.old) (G.plans gates.new) (G.planned gates.old) (G.planned gates.new)
        (G.returned gates.old) (G.returned gates.new))
        → (exit_status result ≡ 0) ⊎ (exit_status result ≡ 7) }
    ensures accepted { AreAccepted (texts words.now) → exit_status result ≡ 2
        → NameAnotherTable (texts words.now) (R.left source.old) }
    ensures words { (AreAccepted (texts words.now) → ⊥) → RefusedEnds (exit_status result, None)
        (stream (R.left source.old) (R.left source.new) (R.faults source.old) (R.faults source.new))
        (stream (K.held sink.old) (K.held sink.new) (K.faults sink.old) (K.faults sink.new))
        (stream (F.held faults.old) (F.held faults.new) (F.faults faults.old) (F.faults faults.new))
        (gating (G.halts gates.old) (G.halts gates.new) (G.asks gates.old) (G.asks gates.new)
        (G.plans gates.old) (G.plans gates.new) (G.planned gates.old) (G.planned gates.new)
        (G.returned gates.old) (G.returned gates.new)) }
    ensures reads { exit_status result ≢ 8 → R.faults source.new ≡ R.faults source.old }
    ensures writes { exit_status result ≢ 9 → K.faults sink.new ≡ K.faults sink.old }
    ensures silent { (IsRunStatus (exit_status result) → ⊥) → exit_status result ≢ 10
        → K.held sink.new ≡ K.held sink.old }
    ensures statuses { exit_status result ≤ 10 }
    ensures checks { exit_status result ≡ 10 → IsCommand (texts words.now) Command.Check }
{
    let (status, ran) = flock(rt, alloc, words, source, sink, faults, gates);
    drop(ran);
    ExitCode::from(status)
}

/// The size of the block that `keep_freed_memory` takes: such a large one is no part of the C library's heap, and the
/// largest of these that changes what the library does has 32 MiB.
const LARGE_BLOCK: usize = 31 << 20;

/// Has the heap keep what is let go, and give it out again: so the system makes fewer new pages for a run.
///
/// glibc asks the system for each large block by itself, and gives it back when it is let go. From then on a block is
/// large only if it is larger than that one. So one is taken here and let go, and no byte of it is touched. It makes no
/// difference but to the time: where there is no such block, or another allocator, all goes on as it would have.
pub fn keep_freed_memory(alloc: Global) {
    let _ = Vec::<u8>::with_capacity(alloc, LARGE_BLOCK);
}

/// The arguments, with the program's name. Where one is no text there are none, and no command has no words.
pub fn arguments(rt: &HostRuntime) -> Result<Vec<String>, AllocError> {
    match env::args(rt) {
        Ok(args) => args.collect(rt.alloc()),
        Err(error) if error.kind() == ErrorKind::InvalidData => Ok(Vec::new(rt.alloc())),
        Err(_) => Err(AllocError),
    }
}

/// The arguments behind the program's name; none, where there isn't even that.
fn behind_name(args: &[String]) -> &[String]
    ensures { result.now ≡ drop 1 args.now }
{
    if args.is_empty() { args } else { &args[1..] }
}

/// The texts of the arguments behind the program's name. The Err is want of memory.
pub fn words_of(alloc: Global, args: &[String]) -> Result<Vec<&str>, AllocError>
    ensures { IfOk result (λ words. texts words.items ≡ map string_bytes (drop 1 args.now)) }
{
    let words = behind_name(args);
    words.iter().map(|arg| arg.as_str()).collect(alloc)
}
