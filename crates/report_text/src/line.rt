// The lines of a report, each with the line feed that ends it.
ghost use Rattle.std.specs.Prelude.{◌≡◌, ◌++◌, ◌+◌, ◌≤◌, codes, decimal};
ghost use Rattle.arrayvec.specs.ArrayString.{array_string_len};
ghost use Rattle.report_text.specs.Report.{reply_text, answer_of, line_text};
ghost use Rattle.report_text.specs.Report.Line.{trace_line, answer_line, final_line};

use crate::page::Page;
use arrayvec::ArrayString;
use history_orders::map_history::{Entry, Reply};
use itoa::Buffer;

/// The bytes of a line that begins a trace, or of the last one.
pub type Line = ArrayString<32>;

/// The line that begins a trace.
pub fn line_of_trace(trace: u32) -> Line
    ensures { result.bytes ≡ line_text (trace_line trace) }
{
    let mut line = Line::new();
    line.push_str("trace ");
    line.push_str(Buffer::new().format(trace));
    line.push_str("\n");
    line
}

/// The last line, with the number of pairs that are left.
pub fn line_of_size(size: u32) -> Line
    ensures { result.bytes ≡ line_text (final_line size) }
{
    let mut line = Line::new();
    line.push_str("final ");
    line.push_str(Buffer::new().format(size));
    line.push_str("\n");
    line
}

/// Adds the line of a request to a page. It is made there, so that nothing is copied.
#[inline(always)]
pub fn push_answer(page: &mut Page, entry: Option<Entry>, rank: Option<u32>)
    requires { array_string_len page.old + 32 ≤ 4096 }
    ensures { page.new.bytes ≡ page.old.bytes ++ line_text (answer_line (answer_of entry rank)) }
{
    match (entry, rank) {
        (Some(entry), Some(rank)) => {
            page.push_str(Buffer::new().format(rank));
            push_reply(page, entry.reply);
        }
        _ => page.push_str("- unserved\n"),
    }
}

// Ends a line with a reply. What stands before and behind it is pushed with its word, in one piece.
#[inline(always)]
fn push_reply(page: &mut Page, reply: Reply)
    requires { array_string_len page.old + 22 ≤ 4096 }
    ensures { page.new.bytes ≡ page.old.bytes ++ codes " " ++ reply_text reply ++ codes "\n" }
{
    match reply {
        Reply::New => page.push_str(" new\n"),
        Reply::Dup => page.push_str(" dup\n"),
        Reply::Val(value) => {
            page.push_str(" val ");
            push_number(page, value);
        }
        Reply::Gone => page.push_str(" gone\n"),
        Reply::Absent => page.push_str(" none\n"),
        Reply::Was(value) => {
            page.push_str(" was ");
            push_number(page, value);
        }
        Reply::Moved => page.push_str(" moved\n"),
    }
}

// Ends a line with a number.
fn push_number(page: &mut Page, number: u32)
    requires { array_string_len page.old + 17 ≤ 4096 }
    ensures { page.new.bytes ≡ page.old.bytes ++ decimal number ++ codes "\n" }
{
    page.push_str(Buffer::new().format(number));
    page.push_str("\n");
}
