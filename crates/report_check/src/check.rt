// The check of a report: its lines, their ranks, their replies, and its final number.
ghost use Rattle.std.specs.Prelude.{◌≡◌, ◌<◌, ◌≤◌, ◌^◌, ◌-◌, All, IfOk, length, min};
ghost use Rattle.std.specs.List.Sorted.{IsNonDecreasingBy};
ghost use Rattle.history_orders.specs.map_history.specs.Requests.{most_requests};
ghost use Rattle.report_check.specs.Said.{IsFormOf};
ghost use Rattle.report_check.specs.Verdicts.{IsLegalReport, Judges};

use crate::form::{Form, read_form};
use crate::ranks::{order_of_ranks, wrong_rank};
use crate::replay::replay;
use crate::verdict::{BadReport, Verdict};
use history_orders::map_history::Request;
use std::alloc::{AllocError, Global};
use trace_reader::Traces;

/// Holds a report against the requests of a text. It is legal, or the first of four tests that fails gives the kind,
/// and its first failing line the number. The Err is want of memory.
pub fn check_report(alloc: Global, traces: &Traces, report: &[u8]) -> Result<Verdict, AllocError>
    requires few { length traces.now.requests ≤ most_requests }
    requires rising { IsNonDecreasingBy (λ request. request.trace) traces.now.requests }
    requires below { All (λ request. request.trace < traces.now.count) traces.now.requests }
    ensures judged { IfOk result (λ verdict. Judges verdict traces.now.count traces.now.requests report.now) }

    // Each legal report is judged legal.
    ensures legal { IfOk result (λ verdict. IsLegalReport traces.now.count traces.now.requests report.now
        → verdict ≡ Verdict.Legal) }
{
    check_lines(alloc, traces.count, traces.requests.as_slice(), report)
}

fn check_lines(
    alloc: Global,
    traces: u32,
    requests: &[Request],
    report: &[u8],
) -> Result<Verdict, AllocError>
    requires few { length requests.now ≤ most_requests }
    requires rising { IsNonDecreasingBy (λ request. request.trace) requests.now }
    requires below { All (λ request. request.trace < traces) requests.now }
    ensures judged { IfOk result (λ verdict. Judges verdict traces requests.now report.now) }
    ensures legal { IfOk result (λ verdict. IsLegalReport traces requests.now report.now
        → verdict ≡ Verdict.Legal) }
{
    match read_form(alloc, traces, requests, report)? {
        Ok(form) => check_form(alloc, traces, requests, report, &form),
        Err(number) => Ok(fails(number, BadReport::Form)),
    }
}

// The tests behind the first one.
fn check_form(
    alloc: Global,
    traces: u32,
    requests: &[Request],
    report: &[u8],
    form: &Form,
) -> Result<Verdict, AllocError>
    requires few { length requests.now ≤ most_requests }
    requires rising { IsNonDecreasingBy (λ request. request.trace) requests.now }
    requires below { All (λ request. request.trace < traces) requests.now }
    requires form { IsFormOf form.now traces requests.now report.now }
    ensures judged { IfOk result (λ verdict. Judges verdict traces requests.now report.now) }
{
    let answers = form.answers.as_slice();
    if let Some(number) = wrong_rank(alloc, requests, answers)? {
        return Ok(fails(number, BadReport::Rank));
    }
    let turns = order_of_ranks(alloc, requests, answers)?;
    let replayed = replay(alloc, requests, answers, turns.as_slice())?;
    if let Some(number) = replayed.wrong {
        return Ok(fails(number, BadReport::Reply));
    }
    if form.size != replayed.size as u64 {
        let last = u64::from(traces) + requests.len() as u64 + 1;
        return Ok(fails(last, BadReport::Final));
    }
    Ok(Verdict::Legal)
}

// A line fails. The numbers of lines end with the last number of 32 bits.
fn fails(number: u64, kind: BadReport) -> Verdict
    ensures { result ≡ Verdict.Fails (min number (2 ^ 32 - 1)) kind }
{
    Verdict::Fails {
        line: number.min(u64::from(u32::MAX)) as u32,
        kind,
    }
}
