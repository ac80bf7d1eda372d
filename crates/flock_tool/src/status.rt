// The ways in which the program ends without a report.
ghost use Rattle.std.specs.Prelude.{◌≡◌, ◌++◌, ◌≤◌, length, codes, decimal};
ghost use Rattle.command_line.specs.trace_reader.specs.declared.traces.TraceError.TheVariants.{Malformed};
ghost use Rattle.flock_tool.specs.End.{Tells, kind_text, error_line, print_stop, stop_line, stop_status};

use arrayvec::ArrayString;
use command_line::trace_reader::{BadLine, TraceError};
use itoa::Buffer;
use load_counts::run_reports::PrintError;
use printed_traces::PrintStop;
use printed_traces::report_text::{Sink, write_all};
use std::alloc::AllocError;

/// Why the program ended before its report was printed whole.
#[derive(Clone, Copy, Debug, PartialEq, Eq)]
pub enum Stop {
    /// The words are no command, or name another table than one that serves the text.
    Words,
    /// The text was not read, or memory was wanting.
    Text(TraceError),
    /// The runners together would have so many node slots, which is more than the limit.
    Nodes { count: u32 },
    /// The sink failed.
    WriteFault,
}

impl From<TraceError> for Stop {
    ghost use Rattle.flock_tool.specs.declared.status.Stop.TheVariants.{Text};

    ghost from_gives = { λ error stop. stop ≡ Text error };

    fn from(error: TraceError) -> Self {
        Stop::Text(error)
    }
}

impl From<AllocError> for Stop {
    ghost use Rattle.flock_tool.specs.declared.status.Stop.TheVariants.{Text};
    ghost use Rattle.command_line.specs.trace_reader.specs.declared.traces.TraceError.TheVariants.{Memory};

    ghost from_gives = { λ _ stop. stop ≡ Text Memory };

    fn from(_: AllocError) -> Self {
        Stop::Text(TraceError::Memory)
    }
}

impl From<PrintError> for Stop {
    ghost use Rattle.flock_tool.specs.End.{stop_of};

    ghost from_gives = { λ error stop. stop ≡ stop_of error };

    fn from(error: PrintError) -> Self {
        match error {
            PrintError::Memory => Stop::Text(TraceError::Memory),
            PrintError::Failed => Stop::WriteFault,
        }
    }
}

/// Why generated requests weren't printed whole.
pub fn stop_of_print(stop: PrintStop) -> Stop
    ensures { result ≡ print_stop stop }
{
    match stop {
        PrintStop::TooManyRequests { count } => Stop::Text(TraceError::TooManyRequests { count }),
        PrintStop::Memory => Stop::Text(TraceError::Memory),
        PrintStop::WriteFault => Stop::WriteFault,
    }
}

/// A line with its line feed; the longest is `flock: line 4294967295: request before trace`.
pub type Line = ArrayString<64>;

/// The number of the status.
pub fn status_of(stop: Stop) -> u8
    ensures { result ≡ stop_status stop }
{
    match stop {
        Stop::Words => 2,
        Stop::Text(TraceError::Malformed { .. }) => 3,
        Stop::Text(
            TraceError::TooLarge { .. }
            | TraceError::TooManyTraces { .. }
            | TraceError::TooManyRequests { .. },
        )
        | Stop::Nodes { .. } => 4,
        Stop::Text(TraceError::Memory) => 7,
        Stop::Text(TraceError::ReadFault) => 8,
        Stop::WriteFault => 9,
    }
}

/// Writes the line that says why. A failure of the sink changes nothing but its count.
pub fn tell<F: Sink>(stop: Stop, faults: &mut F)
    ensures { Tells (stop_line stop) (F.held faults.old) (F.held faults.new) (F.faults faults.old)
        (F.faults faults.new) }
{
    let line = line_of(stop);
    let _ = write_all(faults, line.as_bytes());
}

fn line_of(stop: Stop) -> Line
    ensures { result.bytes ≡ stop_line stop }
{
    match stop {
        Stop::Words => line_of_text("flock: words refused\n"),
        Stop::Text(error) => line_of_error(error),
        Stop::Nodes { count } => line_of_count("flock: limit: nodes ", u64::from(count)),
        Stop::WriteFault => line_of_text("flock: write fault\n"),
    }
}

/// The line that says why a text was not read.
pub fn line_of_error(error: TraceError) -> Line
    ensures { result.bytes ≡ error_line error }
{
    match error {
        TraceError::ReadFault => line_of_text("flock: read fault\n"),
        TraceError::Memory => line_of_text("flock: memory\n"),
        TraceError::TooLarge { bytes } => line_of_count("flock: limit: bytes ", bytes),
        TraceError::Malformed { line, kind } => line_of_fault(line, kind),
        TraceError::TooManyTraces { count } => {
            line_of_count("flock: limit: traces ", u64::from(count))
        }
        TraceError::TooManyRequests { count } => {
            line_of_count("flock: limit: requests ", u64::from(count))
        }
    }
}

fn line_of_text(text: &str) -> Line
    requires { length text.now ≤ 24 }
    ensures { result.bytes ≡ text.now }
{
    let mut line = Line::new();
    line.push_str(text);
    line
}

fn line_of_count(text: &str, count: u64) -> Line
    requires { length text.now ≤ 24 }
    ensures { result.bytes ≡ text.now ++ decimal count ++ codes "\n" }
{
    let mut line = Line::new();
    line.push_str(text);
    line.push_str(Buffer::new().format(count));
    line.push_str("\n");
    line
}

fn line_of_fault(number: u32, kind: BadLine) -> Line
    ensures { result.bytes ≡ error_line (Malformed number kind) }
{
    let mut line = Line::new();
    line.push_str("flock: line ");
    line.push_str(Buffer::new().format(number));
    line.push_str(": ");
    line.push_str(kind_text(kind));
    line.push_str("\n");
    line
}

fn kind_text(kind: BadLine) -> &'static str
    ensures text { result.now ≡ kind_text kind }
    ensures short { length result.now ≤ 20 }
{
    match kind {
        BadLine::NotAscii => "not ascii",
        BadLine::NoHeader => "no header",
        BadLine::UnknownWord => "unknown word",
        BadLine::RequestBeforeTrace => "request before trace",
        BadLine::MissingField => "missing field",
        BadLine::ExtraField => "extra field",
        BadLine::BadNumber => "bad number",
        BadLine::KeyTooLarge => "key too large",
        BadLine::ValueTooLarge => "value too large",
    }
}
