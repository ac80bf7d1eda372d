// Lines that are gathered, so that many go to the sink by one write.
ghost use Rattle.std.specs.Prelude.{◌≡◌, ◌++◌, ◌+◌, ◌≤◌, [], OnOk, OnErr};
ghost use Rattle.arrayvec.specs.ArrayString.{array_string_len};
ghost use Rattle.fault_count.specs.Rose.{Rose};
ghost use Rattle.report_text.specs.Sink.{Extends, ExtendsInPart};
ghost use Rattle.report_text.specs.Page.{Gathers};
ghost use Rattle.report_text.specs.Report.{answer_of, line_text};
ghost use Rattle.report_text.specs.Report.Line.{answer_line};

use crate::line::{Line, push_answer};
use crate::sink::{Failed, Sink, write_all};
use arrayvec::ArrayString;
use history_orders::map_history::Entry;

/// Lines that wait for their write.
pub type Page = ArrayString<4096>;

/// Adds a line to the page, after sending the page where the line might not fit.
pub fn print_line<K: Sink>(line: &Line, page: &mut Page, sink: &mut K) -> Result<(), Failed>
    ensures ok { OnOk result (Gathers (K.held sink.old) page.old.bytes line.now.bytes
        (K.held sink.new) page.new.bytes) }
    ensures err { OnErr result (ExtendsInPart (K.held sink.old) page.old.bytes (K.held sink.new)) }
    ensures later { K.faults sink.old ≤ K.faults sink.new }
    ensures cause { OnErr result (Rose (K.faults sink.old) (K.faults sink.new)) }
    ensures steady { OnOk result (K.faults sink.new ≡ K.faults sink.old) }
{
    make_room(page, sink)?;
    page.push_str(line.as_str());
    Ok(())
}

/// Adds the line of a request to the page, after sending the page where the line might not fit.
#[inline(always)]
pub fn print_answer<K: Sink>(
    entry: Option<Entry>,
    rank: Option<u32>,
    page: &mut Page,
    sink: &mut K,
) -> Result<(), Failed>
    ensures ok { OnOk result (Gathers (K.held sink.old) page.old.bytes (line_text (answer_line (answer_of entry rank)))
        (K.held sink.new) page.new.bytes) }
    ensures err { OnErr result (ExtendsInPart (K.held sink.old) page.old.bytes (K.held sink.new)) }
    ensures later { K.faults sink.old ≤ K.faults sink.new }
    ensures cause { OnErr result (Rose (K.faults sink.old) (K.faults sink.new)) }
    ensures steady { OnOk result (K.faults sink.new ≡ K.faults sink.old) }
{
    make_room(page, sink)?;
    push_answer(page, entry, rank);
    Ok(())
}

// Sends the page where a line might not fit. The longest is `4294967295 val 4294967295`.
#[inline(always)]
fn make_room<K: Sink>(page: &mut Page, sink: &mut K) -> Result<(), Failed>
    ensures room { OnOk result (array_string_len page.new + 32 ≤ 4096) }
    ensures ok { OnOk result (Gathers (K.held sink.old) page.old.bytes [] (K.held sink.new) page.new.bytes) }
    ensures err { OnErr result (ExtendsInPart (K.held sink.old) page.old.bytes (K.held sink.new)) }
    ensures later { K.faults sink.old ≤ K.faults sink.new }
    ensures cause { OnErr result (Rose (K.faults sink.old) (K.faults sink.new)) }
    ensures steady { OnOk result (K.faults sink.new ≡ K.faults sink.old) }
{
    if page.remaining_capacity() < 32 {
        return send(page, sink);
    }
    Ok(())
}

/// Writes the page, and begins an empty one.
pub fn send<K: Sink>(page: &mut Page, sink: &mut K) -> Result<(), Failed>
    ensures ok { OnOk result (Extends (K.held sink.old) page.old.bytes (K.held sink.new)) }
    ensures empty { OnOk result (page.new.bytes ≡ []) }
    ensures err { OnErr result (ExtendsInPart (K.held sink.old) page.old.bytes (K.held sink.new)) }
    ensures later { K.faults sink.old ≤ K.faults sink.new }
    ensures cause { OnErr result (Rose (K.faults sink.old) (K.faults sink.new)) }
    ensures steady { OnOk result (K.faults sink.new ≡ K.faults sink.old) }
{
    write_all(sink, page.as_str().as_bytes())?;
    page.clear();
    Ok(())
}
