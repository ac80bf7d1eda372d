// The lines of a report, each in its place.
ghost use Rattle.std.specs.Prelude.{◌≡◌, ◌++◌, ◌+◌, ◌-◌, ◌<◌, ◌≤◌, ◌∷◌, [], ℕ, All, IfErr, IfOk, List, map, length};
ghost use Rattle.std.specs.List.{range_with_len};
ghost use Rattle.std.specs.List.Sorted.{IsNonDecreasingBy};
ghost use Rattle.history_orders.specs.map_history.specs.Requests.{most_requests};
ghost use Rattle.report_check.specs.Lines.{IsFirstBad, SayAll};
ghost use Rattle.report_check.specs.Rows.{places};
ghost use Rattle.report_check.specs.Said.{IsFormOf};
ghost use Rattle.report_text.specs.Report.{Line};
ghost use Rattle.report_text.specs.Report.Line.{final_line, trace_line};

use crate::line::{take_answer, take_size, take_trace};
use history_orders::map_history::{Entry, Request};
use std::alloc::{AllocError, Global};

/// What a report says of each request, as an entry that has its rank in place of a stamp, and its final number.
#[derive(Debug, Drop)]
pub struct Form {
    /// The ranks are at most 2^32, for which every greater number counts.
    pub answers: Vec<Option<Entry>>,
    /// At most 2^32, for which every greater number counts.
    pub size: u64,
}

/// Reads a report on these requests. The inner Err has the number of the first line that can't stand in its place, the
/// outer one is want of memory.
pub fn read_form(
    alloc: Global,
    traces: u32,
    requests: &[Request],
    report: &[u8],
) -> Result<Result<Form, u64>, AllocError>
    requires few { length requests.now ≤ most_requests }
    requires rising { IsNonDecreasingBy (λ request. request.trace) requests.now }
    requires below { All (λ request. request.trace < traces) requests.now }
    ensures form { IfOk result (λ read. IfOk read (λ form. IsFormOf form traces requests.now report.now)) }
    ensures bad { IfOk result (λ read. IfErr read (λ number.
        IsFirstBad (places traces requests.now) report.now number)) }
{
    let mut answers = Vec::new(alloc);
    let mut begun = 0;
    let mut rest = report;
    for i in 0..requests.len() {
        let next = requests[i].trace + 1;
        match take_traces(begun, next, rest) {
            Ok(more) => rest = more,
            Err(trace) => return Ok(Err(i as u64 + u64::from(trace) + 1)),
        }
        let Some((answer, more)) = take_answer(rest) else {
            return Ok(Err(i as u64 + u64::from(next) + 1));
        };
        answers.push(answer)?;
        rest = more;
        begun = next;
    }
    match take_end(begun, traces, rest) {
        Ok(size) => Ok(Ok(Form { answers, size })),
        Err(number) => Ok(Err(requests.len() as u64 + u64::from(begun) + number)),
    }
}

// The lines that begin the traces from `begun` up to `end`: what stands behind them, or the first trace whose line
// doesn't stand in its place.
fn take_traces(begun: u32, end: u32, bytes: &[u8]) -> Result<&[u8], u32>
    requires { begun ≤ end }
    ensures said { IfOk result (λ more. (lines : List Line) → SayAll lines more.now
        → SayAll (map trace_line (range_with_len begun (end - begun)) ++ lines) bytes.now) }
    ensures later { IfOk result (λ more. (lines : List Line) (number : ℕ) → IsFirstBad lines more.now number
        → IsFirstBad (map trace_line (range_with_len begun (end - begun)) ++ lines) bytes.now
        (number + (end - begun))) }
    ensures bad { IfErr result (λ trace. (lines : List Line)
        → IsFirstBad (map trace_line (range_with_len begun (end - begun)) ++ lines) bytes.now (trace + 1 - begun)) }
    ensures among { IfErr result (λ trace. (begun ≤ trace) × (trace < end)) }
{
    let mut rest = bytes;
    for trace in begun..end {
        let Some(more) = take_trace(trace, rest) else {
            return Err(trace);
        };
        rest = more;
    }
    Ok(rest)
}

// The lines of the traces from `begun` on and the last line, with nothing behind it: its number, or the number of the
// first of these lines, from 1, that can't stand in its place.
fn take_end(begun: u32, traces: u32, bytes: &[u8]) -> Result<u64, u64>
    requires { begun ≤ traces }
    ensures said { IfOk result (λ size.
        SayAll (map trace_line (range_with_len begun (traces - begun)) ++ final_line size ∷ []) bytes.now) }
    ensures bad { IfErr result (λ number.
        IsFirstBad (map trace_line (range_with_len begun (traces - begun)) ++ final_line 0 ∷ []) bytes.now number) }
    ensures few { IfErr result (λ number. number ≤ traces - begun + 2) }
{
    let rest = match take_traces(begun, traces, bytes) {
        Ok(rest) => rest,
        Err(trace) => return Err(u64::from(trace - begun) + 1),
    };
    let Some((size, more)) = take_size(rest) else {
        return Err(u64::from(traces - begun) + 1);
    };
    if more.is_empty() {
        Ok(size)
    } else {
        Err(u64::from(traces - begun) + 2)
    }
}
