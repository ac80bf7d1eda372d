// The printing of the counts.
ghost use Rattle.std.specs.Prelude.{◌≡◌, OnErr, OnOk};
ghost use Rattle.run_reports.specs.report_text.specs.fault_count.specs.Rose.{Rose};
ghost use Rattle.run_reports.specs.report_text.specs.Sink.{Extends, ExtendsInPart};
ghost use Rattle.load_counts.specs.Counts.{counts_text};

use crate::counts::Counts;
use arrayvec::ArrayString;
use itoa::Buffer;
use run_reports::report_text::{Failed, Sink, write_all};

/// Prints seven lines into the sink: how many requests there were, how often each kind of reply came, and how many
/// pairs are left.
///
/// Failed comes only where the sink's count of faults rose; the sink then holds a part of the lines, from the front.
pub fn print_counts<K: Sink>(
    requests: u32,
    counts: &Counts,
    size: u32,
    sink: &mut K,
) -> Result<(), Failed>
    ensures printed { OnOk result (Extends (K.held sink.old) (counts_text requests counts.now size) (K.held sink.new)) }
    ensures steady { OnOk result (K.faults sink.new ≡ K.faults sink.old) }
    ensures in_part { OnErr result (ExtendsInPart (K.held sink.old) (counts_text requests counts.now size)
        (K.held sink.new)) }
    ensures cause { OnErr result (Rose (K.faults sink.old) (K.faults sink.new)) }
{
    let text = text_of(requests, counts, size);
    write_all(sink, text.as_bytes())
}

// The longest has seven numbers of ten digits.
type Text = ArrayString<160>;

fn text_of(requests: u32, counts: &Counts, size: u32) -> Text
    ensures { result.bytes ≡ counts_text requests counts.now size }
{
    let mut text = Text::new();
    text.push_str("requests ");
    text.push_str(Buffer::new().format(requests));
    text.push_str("\nnew ");
    text.push_str(Buffer::new().format(counts.new));
    text.push_str("\ndup ");
    text.push_str(Buffer::new().format(counts.dup));
    text.push_str("\nval ");
    text.push_str(Buffer::new().format(counts.val));
    text.push_str("\ngone ");
    text.push_str(Buffer::new().format(counts.gone));
    text.push_str("\nnone ");
    text.push_str(Buffer::new().format(counts.absent));
    text.push_str("\nfinal ");
    text.push_str(Buffer::new().format(size));
    text.push_str("\n");
    text
}
