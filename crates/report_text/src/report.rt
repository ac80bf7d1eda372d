// The whole report, written in one pass over the requests.
ghost use Rattle.std.specs.Prelude.{◌≡◌, ◌++◌, ◌<◌, ◌≤◌, length, map, is_some, All, OnOk, OnErr};
ghost use Rattle.std.specs.List.Sorted.{IsNonDecreasingBy};
ghost use Rattle.fault_count.specs.Rose.{Rose};
ghost use Rattle.report_text.specs.Page.{Gathers, traces_text};
ghost use Rattle.report_text.specs.Report.{rows_of, report_text};
ghost use Rattle.report_text.specs.Sink.{Appends, ExtendsInPart};

use crate::line::{line_of_size, line_of_trace};
use crate::page::{Page, print_answer, print_line, send};
use crate::sink::{Failed, Sink};
use history_orders::map_history::{Entry, Request};

/// Appends the report on `traces` traces, whose requests have these entries and ranks, and on the `size` pairs that
/// are left. Failed where a write failed or took nothing; the sink then holds a part of the report, from the front.
/// It takes no memory.
pub fn write_report<K: Sink>(
    traces: u32,
    requests: &[Request],
    entries: &[Option<Entry>],
    ranks: &[Option<u32>],
    size: u32,
    sink: &mut K,
) -> Result<(), Failed>
    requires entries { length entries.now ≡ length requests.now }
    requires served { map is_some ranks.now ≡ map is_some entries.now }
    requires in_order { IsNonDecreasingBy (λ request. request.trace) requests.now }
    requires below { All (λ request. request.trace < traces) requests.now }
    ensures appends { Appends result (K.held sink.old)
        (report_text traces (rows_of requests.now entries.now ranks.now) size) (K.held sink.new) }
    ensures later { K.faults sink.old ≤ K.faults sink.new }
    ensures cause { OnErr result (Rose (K.faults sink.old) (K.faults sink.new)) }
    ensures steady { OnOk result (K.faults sink.new ≡ K.faults sink.old) }
{
    let mut page = Page::new();
    let mut begun = 0;
    for i in 0..requests.len() {
        let next = requests[i].trace + 1;
        print_traces(begun, next, &mut page, sink)?;
        print_answer(entries[i], ranks[i], &mut page, sink)?;
        begun = next;
    }
    print_traces(begun, traces, &mut page, sink)?;
    print_line(&line_of_size(size), &mut page, sink)?;
    send(&mut page, sink)
}

// Prints the lines that begin the traces from `begun` up to `end`. There are none before most requests.
#[inline(always)]
fn print_traces<K: Sink>(begun: u32, end: u32, page: &mut Page, sink: &mut K) -> Result<(), Failed>
    requires { begun ≤ end }
    ensures ok { OnOk result (Gathers (K.held sink.old) page.old.bytes (traces_text begun end)
        (K.held sink.new) page.new.bytes) }
    ensures err { OnErr result (ExtendsInPart (K.held sink.old) (page.old.bytes
        ++ traces_text begun end) (K.held sink.new)) }
    ensures later { K.faults sink.old ≤ K.faults sink.new }
    ensures cause { OnErr result (Rose (K.faults sink.old) (K.faults sink.new)) }
    ensures steady { OnOk result (K.faults sink.new ≡ K.faults sink.old) }
{
    for trace in begun..end {
        print_line(&line_of_trace(trace), page, sink)?;
    }
    Ok(())
}
