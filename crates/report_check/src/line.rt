// One line of a report.
ghost use Rattle.std.specs.Prelude.{◌≡◌, ◌==◌, ◌++◌, ◌^◌, ◌<◌, ℕ, false, IfNone, IfSome, IsTrue, List, None, Option, codes, decimal, position};
ghost use Rattle.history_orders.specs.map_history.specs.declared.reply.Reply.{Reply};
ghost use Rattle.history_orders.specs.map_history.specs.Words.{IsReply};
ghost use Rattle.report_check.specs.Lines.{IsNumeral, NoneStands, Says, SaysAnswer};
ghost use Rattle.report_check.specs.Said.{IsCut, IsNext, SaysNumber, answer_said, said_answer};
ghost use Rattle.report_text.specs.Report.{Answer, reply_text};
ghost use Rattle.report_text.specs.Report.Line.{trace_line, answer_line, final_line};
ghost use Rattle.trace_reader.specs.Lines.{IsOneLine};

use crate::parts::find_feed;
use history_orders::map_history::{Entry, Reply};
use trace_reader::number;

/// The line that begins this trace, at the front of the bytes: what stands behind it.
pub fn take_trace(trace: u32, bytes: &[u8]) -> Option<&[u8]>
    ensures some { IfSome result (λ more. IsNext (trace_line trace) bytes.now more.now) }
    ensures none { IfNone result (NoneStands (trace_line trace) bytes.now) }
{
    let (line, more) = take_line(bytes)?;
    if is_trace(trace, line) {
        Some(more)
    } else {
        None
    }
}

// The line that begins this trace.
fn is_trace(trace: u32, line: &[u8]) -> bool
    ensures yes { IsTrue result → Says (trace_line trace) line.now }
    ensures no { result ≡ false → Says (trace_line trace) line.now → ⊥ }
{
    match numeral_behind(b"trace ", line) {
        Some(number) => number == u64::from(trace),
        None => false,
    }
}

/// The line of a request, at the front of the bytes: what it says, and what stands behind it.
pub fn take_answer(bytes: &[u8]) -> Option<(Option<Entry>, &[u8])>
    ensures some { IfSome result (λ taken. IsNext (answer_line (answer_said taken.0)) bytes.now taken.1.now) }
    ensures none { IfNone result (NoneStands (answer_line None) bytes.now) }
{
    let (line, more) = take_line(bytes)?;
    let answer = read_answer(line)?;
    Some((answer, more))
}

/// The last line, at the front of the bytes: its number, and what stands behind it.
pub fn take_size(bytes: &[u8]) -> Option<(u64, &[u8])>
    ensures some { IfSome result (λ taken. IsNext (final_line taken.0) bytes.now taken.1.now) }
    ensures none { IfNone result (NoneStands (final_line 0) bytes.now) }
{
    let (line, more) = take_line(bytes)?;
    let size = numeral_behind(b"final ", line)?;
    Some((size, more))
}

// The bytes before the first line feed, and those behind it. None where there is no line feed.
fn take_line(bytes: &[u8]) -> Option<(&[u8], &[u8])>
    ensures some { IfSome result (λ parts. IsCut bytes.now parts.0.now parts.1.now) }
    ensures none { IfNone result (IsOneLine bytes.now) }
{
    let end = find_feed(bytes)?;
    Some((&bytes[..end], &bytes[end + 1..]))
}

// What a line says in the place of a request.
fn read_answer(line: &[u8]) -> Option<Option<Entry>>
    ensures some { IfSome result (λ said. Says (answer_line (answer_said said)) line.now) }
    ensures none { IfNone result ((any : Option Answer) → Says (answer_line any) line.now → ⊥) }
{
    match line {
        b"- unserved" => Some(None),
        _ => Some(Some(read_served(line)?)),
    }
}

// A rank and a reply, as an entry that has the rank in place of a stamp.
fn read_served(line: &[u8]) -> Option<Entry>
    ensures some { IfSome result (λ said. SaysAnswer (said_answer said) line.now) }
    ensures none { IfNone result ((answer : Answer) → SaysAnswer answer line.now → ⊥) }
{
    let end = find_space(line)?;
    let rank = numeral(&line[..end])?;
    let reply = read_reply(&line[end + 1..])?;
    Some(Entry { stamp: rank, reply })
}

// Where the first space stands.
fn find_space(line: &[u8]) -> Option<usize>
    ensures { result ≡ position (λ byte. byte == 32) line.now }
{
    line.iter().position(|byte| *byte == b' ')
}

// The reply that is printed so.
fn read_reply(text: &[u8]) -> Option<Reply>
    ensures some { IfSome result (λ reply. (text.now ≡ reply_text reply) × IsReply reply) }
    ensures none { IfNone result ((reply : Reply) → IsReply reply → text.now ≡ reply_text reply → ⊥) }
{
    match text {
        b"new" => Some(Reply::New),
        b"dup" => Some(Reply::Dup),
        b"gone" => Some(Reply::Gone),
        b"none" => Some(Reply::Absent),
        b"moved" => Some(Reply::Moved),
        _ => read_valued(text),
    }
}

// The reply with a value that is printed so: of a look-up that found one, or of a `put` that replaced one.
fn read_valued(text: &[u8]) -> Option<Reply>
    ensures some { IfSome result (λ reply. (text.now ≡ reply_text reply) × IsReply reply) }
    ensures none { IfNone result ((value : ℕ) → value < 2 ^ 32 → (text.now ≡ codes "val " ++ decimal value → ⊥)
        × (text.now ≡ codes "was " ++ decimal value → ⊥)) }
{
    match read_value(b"val ", text) {
        Some(value) => Some(Reply::Val(value)),
        None => Some(Reply::Was(read_value(b"was ", text)?)),
    }
}

// The value of 32 bits behind this word.
fn read_value(word: &[u8], text: &[u8]) -> Option<u32>
    ensures some { IfSome result (λ value. text.now ≡ word.now ++ decimal value) }
    ensures none { IfNone result ((value : ℕ) → value < 2 ^ 32 → text.now ≡ word.now ++ decimal value → ⊥) }
{
    let value = numeral_behind(word, text)?;
    if value < 1 << 32 {
        Some(value as u32)
    } else {
        None
    }
}

// The numeral that stands behind this word, and nothing behind it.
fn numeral_behind(word: &[u8], line: &[u8]) -> Option<u64>
    ensures some { IfSome result (SaysNumber word.now line.now) }
    ensures none { IfNone result ((value : ℕ) → SaysNumber word.now line.now value → ⊥) }
{
    let digits = behind(word, line)?;
    let value = numeral(digits)?;
    Some(value)
}

// What stands behind this word.
fn behind<'a>(word: &[u8], line: &'a [u8]) -> Option<&'a [u8]>
    ensures some { IfSome result (λ rest. line.now ≡ word.now ++ rest.now) }
    ensures none { IfNone result ((rest : List ℕ) → line.now ≡ word.now ++ rest → ⊥) }
{
    line.strip_prefix(word)
}

// The number of digits without a leading zero, or 2^32 where it is more.
fn numeral(digits: &[u8]) -> Option<u64>
    ensures some { IfSome result (IsNumeral digits.now) }
    ensures none { IfNone result ((value : ℕ) → IsNumeral digits.now value → ⊥) }
{
    let value = number(digits)?;
    if digits[0] == b'0' && digits.len() > 1 {
        return None;
    }
    Some(value)
}
