//! The program.
#![tactic(auto)]

mod start;

use flock_tool::threaded_runs::runner_gate::PlannedGates;
use flock_tool::{StdSink, StdSource};
use start::{MEMORY, arguments, keep_freed_memory, run, words_of};
use std::process::ExitCode;

/// Runs the command of the program's words on its standard streams, with threads and with gates that halt as planned,
/// and ends with its status. It is 7 where memory is wanting for the words. Where a word is no text, the words are
/// refused.
fn main(rt: HostRuntime) -> ExitCode {
    let alloc = rt.alloc();
    keep_freed_memory(alloc);
    let Ok(args) = arguments(&rt) else {
        return ExitCode::from(MEMORY);
    };
    let Ok(words) = words_of(alloc, &args) else {
        return ExitCode::from(MEMORY);
    };
    let mut source = StdSource::new(rt.stdin());
    let mut sink = StdSink::new(rt.stdout());
    let mut faults = StdSink::new(rt.stderr());
    let mut gates = PlannedGates::new();
    run(
        &rt,
        alloc,
        &words,
        &mut source,
        &mut sink,
        &mut faults,
        &mut gates,
    )
}
