// A request as it is mostly written, read in one pass: one blank between its fields, and behind the last nothing but
// the line feed.
ghost use Rattle.std.specs.Prelude.{◌≡◌, ◌≤◌, ◌+◌, Some, true, length, take, IfSome};
ghost use Rattle.std.specs.Str.{bytes_eq};
ghost use Rattle.trace_reader.specs.Formats.{IsFormat};
ghost use Rattle.trace_reader.specs.Plain.{AreDigits, BeginWithNumber, BeginWithPair, BeginWithRequest, IsRequestAt, format_of_word, text_of};

use map_history::Op;

/// A request, and where the line feed stands that ends its line.
#[derive(Clone, Copy, Debug, PartialEq, Eq)]
pub struct PlainRequest {
    pub op: Op,
    pub end: usize,
}

/// The request with which the bytes begin, where it is written so and the format has it. None says nothing of them:
/// their line is to be read field by field.
pub fn plain_request(bytes: &[u8], format: u32) -> Option<PlainRequest>
    requires { IsFormat format }
    ensures { IfSome result (λ found. IsRequestAt (Some format) bytes.now found.op found.end) }
{
    let (op, rest) = plain_op(bytes, format)?;
    Some(PlainRequest {
        op,
        end: bytes.len() - rest.len() - 1,
    })
}

// What it asks, and what stands behind its line.
fn plain_op(bytes: &[u8], format: u32) -> Option<(Op, &[u8])>
    requires { IsFormat format }
    ensures { IfSome result (λ found. BeginWithRequest (Some format) bytes.now found.0 found.1.now) }
{
    let (word, numbers) = bytes.split_at_checked(4)?;
    match word_of(word, format)? {
        Word::Ins => {
            let (key, value, rest) = plain_pair(numbers)?;
            Some((Op::Ins(key, value), rest))
        }
        Word::Get => {
            let (key, rest) = number_before(numbers, b'\n')?;
            Some((Op::Get(key), rest))
        }
        Word::Del => {
            let (key, rest) = number_before(numbers, b'\n')?;
            Some((Op::Del(key), rest))
        }
        Word::Put => {
            let (key, value, rest) = plain_pair(numbers)?;
            Some((Op::Put(key, value), rest))
        }
        Word::Mov => {
            let (from, to, rest) = plain_pair(numbers)?;
            Some((Op::Mov(from, to), rest))
        }
    }
}

// The two numbers with which the bytes begin, and what stands behind their line.
fn plain_pair(bytes: &[u8]) -> Option<(u32, u32, &[u8])>
    ensures { IfSome result (λ found. BeginWithPair bytes.now found.0 found.1 found.2.now) }
{
    let (first, more) = number_before(bytes, b' ')?;
    let (second, rest) = number_before(more, b'\n')?;
    Some((first, second, rest))
}

// The word with which a request begins.
#[derive(Clone, Copy, Debug, PartialEq, Eq)]
enum Word {
    Get,
    Ins,
    Del,
    Put,
    Mov,
}

// The word that these bytes are, with the blank behind it, where the format has it.
fn word_of(bytes: &[u8], format: u32) -> Option<Word>
    requires { IsFormat format }
    ensures text { IfSome result (λ word. bytes_eq bytes.now (text_of word) ≡ true) }
    ensures format { IfSome result (λ word. format_of_word word ≤ format) }
{
    match bytes {
        b"get " => Some(Word::Get),
        b"ins " => Some(Word::Ins),
        b"del " => Some(Word::Del),
        b"put " if format >= 2 => Some(Word::Put),
        b"mov " if format >= 3 => Some(Word::Mov),
        _ => None,
    }
}

// The number with which the bytes begin, where this byte ends it, and what stands behind that.
fn number_before(bytes: &[u8], end: u8) -> Option<(u32, &[u8])>
    ensures { IfSome result (λ found. BeginWithNumber bytes.now found.0 end found.1.now) }
{
    let (number, len) = leading_number(bytes)?;
    if len < bytes.len() && bytes[len] == end {
        Some((number, &bytes[len + 1..]))
    } else {
        None
    }
}

// A number below this may have one more digit, and is no more than a key may be then.
const TENTH: u32 = 429_496_729;

// The number with which the bytes begin, and how many digits it has. None also where it is large.
fn leading_number(bytes: &[u8]) -> Option<(u32, usize)>
    ensures digits { IfSome result (λ found. AreDigits found.0 (take found.1 bytes.now)) }
    ensures bounds { IfSome result (λ found. (found.0 ≤ 4294967289) × (found.1 ≤ length bytes.now)) }
{
    let mut number = 0;
    let mut len = 0;
    while len < bytes.len() && bytes[len].is_ascii_digit() {
        if number >= TENTH {
            return None;
        }
        number = number * 10 + u32::from(bytes[len] - b'0');
        len += 1;
    }
    if len == 0 {
        return None;
    }
    Some((number, len))
}
