// The printing of generated requests.
ghost use Rattle.std.specs.Prelude.{◌≡◌, ◌*◌, ◌<◌, ◌≤◌, Err, IfErr, OnOk};
ghost use Rattle.map_history.specs.Requests.{most_requests};
ghost use Rattle.report_text.specs.fault_count.specs.Rose.{Rose};
ghost use Rattle.trace_reader.specs.Generator.{IsPlan};
ghost use Rattle.printed_traces.specs.Ends.{IsPlanInRange, IsRead, Prints, Stops};
ghost use Rattle.printed_traces.specs.declared.print.PrintStop.TheVariants.{TooManyRequests, Memory, WriteFault};

use crate::trace_text;
use report_text::{Failed, Sink, write_all};
use std::alloc::{AllocError, Global};
use trace_reader::{Gen, MAX_REQUESTS, generate};

/// Why nothing was printed, or not all.
#[derive(Clone, Copy, Debug, PartialEq, Eq)]
pub enum PrintStop {
    /// All traces together would have more than 131,072 requests.
    TooManyRequests { count: u32 },
    /// Want of memory.
    Memory,
    /// The sink failed.
    WriteFault,
}

impl From<AllocError> for PrintStop {
    ghost from_gives = { λ _ e. e ≡ Memory };

    fn from(_: AllocError) -> Self {
        PrintStop::Memory
    }
}

impl From<Failed> for PrintStop {
    ghost from_gives = { λ _ e. e ≡ WriteFault };

    fn from(_: Failed) -> Self {
        PrintStop::WriteFault
    }
}

/// Prints a trace text with the generator's requests into the sink.
///
/// The text is exactly that of these requests, and the grammar relates it to them. `TooManyRequests` comes exactly
/// where all traces together would have more than 131,072 requests. At it and at `Memory` nothing is printed. At
/// `WriteFault` the sink's count of faults rose, and it holds a part of the text from the front.
pub fn print_generated<K: Sink>(alloc: Global, plan: &Gen, sink: &mut K) -> Result<(), PrintStop>
    requires { IsPlanInRange plan.now }
    ensures done { OnOk result (Prints plan.now (K.held sink.old) (K.held sink.new)) }
    ensures read { OnOk result (IsRead plan.now) }
    ensures steady { OnOk result (K.faults sink.new ≡ K.faults sink.old) }
    ensures stops { IfErr result (λ stop. Stops stop plan.now (K.held sink.old) (K.held sink.new) (K.faults sink.old)
        (K.faults sink.new)) }
    ensures limit { most_requests < plan.now.traces * plan.now.length
        → result ≡ Err (TooManyRequests (plan.now.traces * plan.now.length)) }
{
    let count = plan.traces * plan.length;
    if count > MAX_REQUESTS {
        return Err(PrintStop::TooManyRequests { count });
    }
    print(alloc, plan, sink)
}

// The same where there are no more requests than a text may have.
fn print<K: Sink>(alloc: Global, plan: &Gen, sink: &mut K) -> Result<(), PrintStop>
    requires { IsPlan plan.now }
    ensures done { OnOk result (Prints plan.now (K.held sink.old) (K.held sink.new)) }
    ensures read { OnOk result (IsRead plan.now) }
    ensures steady { OnOk result (K.faults sink.new ≡ K.faults sink.old) }
    ensures stops { IfErr result (λ stop. Stops stop plan.now (K.held sink.old) (K.held sink.new) (K.faults sink.old)
        (K.faults sink.new)) }
{
    let traces = generate(alloc, plan)?;
    let text = trace_text(alloc, traces.requests.as_slice(), traces.count)?;
    write_all(sink, &text)?;
    Ok(())
}
