// The command `check`.
ghost use Rattle.std.specs.Prelude.{◌≡◌, ◌≤◌, length};
ghost use Rattle.flock_tool.specs.Checks.{CheckPrints, IsSaid, IsVerdictStatus, check_line, check_status, test_name, verdict_line, verdict_status};
ghost use Rattle.flock_tool.specs.End.{Tells};
ghost use Rattle.flock_tool.specs.Streams.{stream};

use crate::status::{Line, Stop, line_of_error, status_of, tell};
use command_line::trace_reader::Source;
use itoa::Buffer;
use printed_traces::report_text::{Sink, write_all};
use report_check::{BadReport, CheckError, Verdict, check_input};
use std::alloc::Global;

/// Checks the report in the input of the source, prints the verdict, and gives the status.
pub fn check_command<R: Source, K: Sink, F: Sink>(
    alloc: Global,
    source: &mut R,
    sink: &mut K,
    faults: &mut F,
) -> u8
    ensures { CheckPrints result
        (stream (R.left source.old) (R.left source.new) (R.faults source.old) (R.faults source.new))
        (stream (K.held sink.old) (K.held sink.new) (K.faults sink.old) (K.faults sink.new))
        (stream (F.held faults.old) (F.held faults.new) (F.faults faults.old) (F.faults faults.new)) }
{
    match check_input(alloc, source) {
        Ok(verdict) => print_verdict(verdict, sink, faults),
        Err(error) => {
            tell_unchecked(error, faults);
            status_of_unchecked(error)
        }
    }
}

// Prints a verdict, and gives the status.
fn print_verdict<K: Sink, F: Sink>(verdict: Verdict, sink: &mut K, faults: &mut F) -> u8
    ensures status { IsVerdictStatus result }
    ensures said { IsSaid verdict result
        (stream (K.held sink.old) (K.held sink.new) (K.faults sink.old) (K.faults sink.new))
        (stream (F.held faults.old) (F.held faults.new) (F.faults faults.old) (F.faults faults.new)) }
{
    let line = line_of_verdict(verdict);
    match write_all(sink, line.as_bytes()) {
        Ok(()) => status_of_verdict(verdict),
        Err(_) => {
            tell(Stop::WriteFault, faults);
            status_of(Stop::WriteFault)
        }
    }
}

fn status_of_verdict(verdict: Verdict) -> u8
    ensures { result ≡ verdict_status verdict }
{
    match verdict {
        Verdict::Legal => 0,
        Verdict::Fails { .. } => 10,
    }
}

fn line_of_verdict(verdict: Verdict) -> Line
    ensures { result.bytes ≡ verdict_line verdict }
{
    let mut text = Line::new();
    match verdict {
        Verdict::Legal => text.push_str("legal\n"),
        Verdict::Fails { line, kind } => {
            text.push_str("line ");
            text.push_str(Buffer::new().format(line));
            text.push_str(": ");
            text.push_str(test_name(kind));
            text.push_str("\n");
        }
    }
    text
}

fn test_name(kind: BadReport) -> &'static str
    ensures text { result.now ≡ test_name kind }
    ensures short { length result.now ≤ 5 }
{
    match kind {
        BadReport::Form => "form",
        BadReport::Rank => "rank",
        BadReport::Reply => "reply",
        BadReport::Final => "final",
    }
}

fn status_of_unchecked(error: CheckError) -> u8
    ensures { result ≡ check_status error }
{
    match error {
        CheckError::Text(error) => status_of(Stop::Text(error)),
        CheckError::NoReport { .. } => 3,
    }
}

// Writes the line that says why an input wasn't checked. A failure of the sink changes nothing but its count.
fn tell_unchecked<F: Sink>(error: CheckError, faults: &mut F)
    ensures { Tells (check_line error) (F.held faults.old) (F.held faults.new) (F.faults faults.old)
        (F.faults faults.new) }
{
    let line = line_of_unchecked(error);
    let _ = write_all(faults, line.as_bytes());
}

fn line_of_unchecked(error: CheckError) -> Line
    ensures { result.bytes ≡ check_line error }
{
    match error {
        CheckError::Text(error) => line_of_error(error),
        CheckError::NoReport { line } => line_of_no_report(line),
    }
}

fn line_of_no_report(number: u32) -> Line
    ensures { result.bytes ≡ check_line (CheckError.NoReport number) }
{
    let mut line = Line::new();
    line.push_str("flock: line ");
    line.push_str(Buffer::new().format(number));
    line.push_str(": no report\n");
    line
}
