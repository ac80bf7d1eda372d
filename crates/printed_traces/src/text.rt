// A whole trace text.
ghost use Rattle.std.specs.Prelude.{◌≡◌, IfOk};
ghost use Rattle.map_history.specs.Requests.{AreInOrder};
ghost use Rattle.trace_reader.specs.Answer.{AreTracesOf};
ghost use Rattle.trace_reader.specs.Formats.{format_for};
ghost use Rattle.trace_reader.specs.Printed.{HasSmallValue, HaveSmallValues, printed};

use crate::line::{push_beginnings, push_header, push_line};
use map_history::{Op, Request};
use std::alloc::{AllocError, Global};
use trace_reader::printed_text_is_read;

/// The text of a header and of so many traces with these requests, which stand in the order of their traces.
///
/// The header names the least format that has the requests. `read_traces` reads these requests from the text again, and
/// the same number of traces. The Err is want of memory.
pub fn trace_text(alloc: Global, requests: &[Request], traces: u32) -> Result<Vec<u8>, AllocError>
    requires { AreInOrder requests.now traces }
    ensures text { IfOk result (λ text. text.items ≡ printed requests.now traces) }
    ensures read { IfOk result (λ text.
        AreTracesOf (record { format = format_for requests.now; count = traces; requests = requests.now })
        text.items) }
{
    values_fit(requests);
    printed_text_is_read();
    print(alloc, requests, traces)
}

fn print(alloc: Global, requests: &[Request], traces: u32) -> Result<Vec<u8>, AllocError>
    requires { AreInOrder requests.now traces }
    ensures { IfOk result (λ text. text.items ≡ printed requests.now traces) }
{
    let mut text = Vec::new(alloc);
    push_header(&mut text, format_for(requests))?;
    let mut begun = 0;
    for request in requests {
        push_beginnings(&mut text, request.trace + 1 - begun)?;
        push_line(&mut text, request.op)?;
        begun = request.trace + 1;
    }
    push_beginnings(&mut text, traces - begun)?;
    Ok(text)
}

// The least format that has the requests.
fn format_for(requests: &[Request]) -> u32
    ensures { result ≡ format_for requests.now }
{
    let mut format = 1;
    for request in requests {
        format = format.max(request.op.least_format());
    }
    format
}

// A value has 32 bits.
fn value_fits(op: Op)
    ensures { HasSmallValue op }
{
    match op {
        Op::Get(_) => {}
        Op::Ins(_, _) => {}
        Op::Del(_) => {}
        Op::Put(_, _) => {}
        Op::Mov(_, _) => {}
    }
}

// So it is with each request.
fn values_fit(requests: &[Request])
    ensures { HaveSmallValues requests.now }
{
    for request in requests {
        value_fits(request.op);
    }
}
