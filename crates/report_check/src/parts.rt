// Where a text ends and the report on it begins.
ghost use Rattle.std.specs.Prelude.{◌≡◌, ◌==◌, ◌<◌, ◌≤◌, ◌∷◌, [], false, IfNone, IfSome, IsTrue, codes, length, position};
ghost use Rattle.report_check.specs.Parts.{AreParted, IsLineAtFront, IsReportLine, NonePart};
ghost use Rattle.trace_reader.specs.Fields.{fields_in};
ghost use Rattle.trace_reader.specs.Lines.{lines_of};

use memchr::memchr;
use trace_reader::{content, first_field};

/// Where the first line begins whose only field is `report`, and where what stands behind that line begins. None where
/// no line is such a one.
pub fn split_report(bytes: &[u8]) -> Option<(usize, usize)>
    ensures parted { IfSome result (λ found. AreParted bytes.now found.0 found.1) }
    ensures order { IfSome result (λ found. (found.0 ≤ found.1) × (found.1 ≤ length bytes.now)) }
    ensures none { IfNone result (NonePart (lines_of bytes.now)) }
{
    let mut at = 0;
    while at < bytes.len() {
        let rest = &bytes[at..];
        let (end, next) = first_line(rest);
        if is_report(&rest[..end]) {
            return Some((at, at + next));
        }
        at += next;
    }
    None
}

/// How many lines the bytes have; the last may have no line feed.
pub fn count_lines(bytes: &[u8]) -> usize
    ensures count { result ≡ length (lines_of bytes.now) }
    ensures few { result ≤ length bytes.now }
{
    let mut count = 0;
    let mut at = 0;
    while at < bytes.len() {
        let (_, next) = first_line(&bytes[at..]);
        at += next;
        count += 1;
    }
    count
}

// Where the first line ends, and where what stands behind it begins.
fn first_line(bytes: &[u8]) -> (usize, usize)
    requires { 0 < length bytes.now }
    ensures { IsLineAtFront bytes.now result.0 result.1 }
{
    match find_feed(bytes) {
        Some(end) => (end, end + 1),
        None => (bytes.len(), bytes.len()),
    }
}

/// Where the first line feed stands.
pub fn find_feed(bytes: &[u8]) -> Option<usize>
    ensures { result ≡ position (λ byte. byte == 10) bytes.now }
{
    memchr(b'\n', bytes)
}

// The only field of the line is `report`.
fn is_report(line: &[u8]) -> bool
    ensures yes { IsTrue result → IsReportLine line.now }
    ensures no { result ≡ false → IsReportLine line.now → ⊥ }
{
    match first_field(content(line)) {
        Some((word, rest)) => is_word(word) && has_no_field(rest),
        None => false,
    }
}

fn is_word(word: &[u8]) -> bool
    ensures yes { IsTrue result → word.now ≡ codes "report" }
    ensures no { result ≡ false → word.now ≡ codes "report" → ⊥ }
{
    match word {
        b"report" => true,
        _ => false,
    }
}

// There are only blanks.
fn has_no_field(line: &[u8]) -> bool
    ensures yes { IsTrue result → fields_in line.now ≡ [] }
    ensures no { result ≡ false → fields_in line.now ≡ [] → ⊥ }
{
    match first_field(line) {
        Some(_) => false,
        None => true,
    }
}
