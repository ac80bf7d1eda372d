// A whole input that is checked: a text, a line `report`, and a report.
ghost use Rattle.std.specs.Prelude.{◌≡◌, ◌≤◌, IsErrOf, IfOk, IfSome, length};
ghost use Rattle.report_text.specs.fault_count.specs.Rose.{Rose};
ghost use Rattle.history_orders.specs.map_history.specs.Requests.{AreInOrder};
ghost use Rattle.trace_reader.specs.Answer.{IsAnswered};
ghost use Rattle.trace_reader.specs.Lines.{lines_of};
ghost use Rattle.trace_reader.specs.declared.traces.TraceError.TheVariants.{ReadFault};
ghost use Rattle.report_check.specs.Input.{StopsWithin};
ghost use Rattle.report_check.specs.Inputs.{IsAnswerOf, IsExactOf, input_error};
ghost use Rattle.report_check.specs.Parts.{AreParted, NonePart};
ghost use Rattle.report_check.specs.declared.whole.CheckError.TheVariants.{Text};

use crate::check::check_report;
use crate::input::{InputError, read_all};
use crate::parts::{count_lines, split_report};
use crate::verdict::Verdict;
use std::alloc::{AllocError, Global};
use trace_reader::{Source, SureSource, TraceError, Traces, read_traces};

/// Why an input was not checked.
#[derive(Clone, Copy, Debug, PartialEq, Eq)]
pub enum CheckError {
    /// The input or its text was not read, or memory was wanting. The input has a limit of its own.
    Text(TraceError),
    /// No line has `report` as its only field; this would be the line after the last.
    NoReport { line: u32 },
}

impl From<TraceError> for CheckError {
    ghost use Rattle.report_check.specs.declared.whole.CheckError.TheVariants.{Text};

    ghost from_gives = { λ error e. e ≡ Text error };

    fn from(error: TraceError) -> Self {
        CheckError::Text(error)
    }
}

impl From<AllocError> for CheckError {
    ghost use Rattle.report_check.specs.declared.whole.CheckError.TheVariants.{Text};
    ghost use Rattle.trace_reader.specs.declared.traces.TraceError.TheVariants.{Memory};

    ghost from_gives = { λ _ e. e ≡ Text Memory };

    fn from(_: AllocError) -> Self {
        CheckError::Text(TraceError::Memory)
    }
}

/// Reads an input whole and checks the report in it: what stands behind the first line whose only field is `report`,
/// against the text that stands before it.
///
/// The first refusal in the text is answered, and where no line is `report` the whole input is read as that text. A
/// failed read is answered where it came, and the source counted it. `Memory` is want of memory.
pub fn check_input<R: Source>(alloc: Global, source: &mut R) -> Result<Verdict, CheckError>
    ensures answer { IfSome (R.left source.old) (IsAnswerOf result) }

    // The causes exclude one another: where no read fails and memory suffices, the input alone settles the answer.
    ensures exact { IfSome (R.left source.old) (IsExactOf result) }

    // A failed read is answered only where the source counted it, within the limit of bytes. Where the source counted
    // one, it is answered and nothing else.
    ensures fault { IsErrOf result (Text ReadFault) → Rose (R.faults source.old) (R.faults source.new) }
    ensures first { IsErrOf result (Text ReadFault) → StopsWithin (R.left source.old) (R.left source.new) }
    ensures steady { (IsErrOf result (Text ReadFault) → ⊥) → R.faults source.new ≡ R.faults source.old }
    ensures later { R.faults source.old ≤ R.faults source.new }
{
    read_and_check(alloc, source)
}

fn read_and_check<R: Source>(alloc: Global, source: &mut R) -> Result<Verdict, CheckError>
    ensures answer { IfSome (R.left source.old) (IsAnswerOf result) }
    ensures fault { IsErrOf result (Text ReadFault) → Rose (R.faults source.old) (R.faults source.new) }
    ensures first { IsErrOf result (Text ReadFault) → StopsWithin (R.left source.old) (R.left source.new) }
    ensures steady { (IsErrOf result (Text ReadFault) → ⊥) → R.faults source.new ≡ R.faults source.old }
    ensures later { R.faults source.old ≤ R.faults source.new }
{
    match read_all(alloc, source) {
        Ok(input) => check_bytes(alloc, input.as_slice()),
        Err(error) => Err(CheckError::Text(error_of(error))),
    }
}

// Why an input was not read, as a text's error.
fn error_of(error: InputError) -> TraceError
    ensures { result ≡ input_error error }
{
    match error {
        InputError::ReadFault => TraceError::ReadFault,
        InputError::TooLarge { bytes } => TraceError::TooLarge { bytes },
        InputError::Memory => TraceError::Memory,
    }
}

// Checks an input that was read.
fn check_bytes(alloc: Global, input: &[u8]) -> Result<Verdict, CheckError>
    requires { length input.now ≤ 8388608 }
    ensures answer { IsAnswerOf result input.now }
    ensures read { IsErrOf result (Text ReadFault) → ⊥ }
{
    match split_report(input) {
        Some((begin, end)) => check_parts(alloc, input, begin, end),
        None => refuse_text(alloc, input),
    }
}

// Checks the report behind a line that ends in the second place, against the text before the first place.
fn check_parts(alloc: Global, input: &[u8], begin: usize, end: usize) -> Result<Verdict, CheckError>
    requires within { length input.now ≤ 8388608 }
    requires parted { AreParted input.now begin end }
    requires order { (begin ≤ end) × (end ≤ length input.now) }
    ensures answer { IsAnswerOf result input.now }
    ensures read { IsErrOf result (Text ReadFault) → ⊥ }
{
    let traces = read_text(alloc, &input[..begin])?;
    let verdict = check_report(alloc, &traces, &input[end..])?;
    Ok(verdict)
}

// The answer where no line parts the input: it is a text that is refused, or one without a report.
fn refuse_text(alloc: Global, input: &[u8]) -> Result<Verdict, CheckError>
    requires within { length input.now ≤ 8388608 }
    requires none { NonePart (lines_of input.now) }
    ensures answer { IsAnswerOf result input.now }
    ensures read { IsErrOf result (Text ReadFault) → ⊥ }
{
    let _traces = read_text(alloc, input)?;
    Err(CheckError::NoReport {
        line: count_lines(input) as u32 + 1,
    })
}

// Reads a text that stands in memory.
fn read_text(alloc: Global, bytes: &[u8]) -> Result<Traces, TraceError>
    ensures answer { IsAnswered result bytes.now }
    ensures ordered { IfOk result (λ traces. AreInOrder traces.requests traces.count) }
{
    let Ok(copy) = copy_of(alloc, bytes) else {
        return Err(TraceError::Memory);
    };
    let mut source = SureSource::new(copy, Vec::new(alloc));
    read_traces(alloc, &mut source)
}

fn copy_of(alloc: Global, bytes: &[u8]) -> Result<Vec<u8>, AllocError>
    ensures { IfOk result (λ copy. copy.items ≡ bytes.now) }
{
    let mut copy = Vec::new(alloc);
    copy.extend_from_slice(bytes)?;
    Ok(copy)
}
