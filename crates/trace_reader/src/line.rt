// What one line says.
ghost use Rattle.std.specs.Prelude.{◌≡◌, ◌≢◌, ◌≤◌, ◌<◌, ◌∷◌, [], true, None, Some, IfErr, IfOk, IfNone, IfSome, OnOk, false, length, nat_le, not};
ghost use Rattle.map_history.specs.declared.op.Op.TheVariants.{Mov, Put};
ghost use Rattle.trace_reader.specs.Fields.{fields_in, value_of};
ghost use Rattle.trace_reader.specs.Formats.{IsFormat};
ghost use Rattle.trace_reader.specs.Line.{fault_of, fault_of_words, field, first_found, format_named, header_of, request_tests};
ghost use Rattle.trace_reader.specs.Said.{Says, SaysWords};

use crate::field::{content, first_byte, first_field, is_ascii, number};
use crate::limits::MAX_KEY;
use crate::traces::BadLine;
use map_history::Op;

/// What a line says.
#[derive(Clone, Copy, Debug, PartialEq, Eq)]
pub enum Line {
    /// It counts for nothing.
    Skipped,
    /// The header, with the format that it names.
    Header(u32),
    Trace,
    Ask(Op),
}

/// Reads a line, where a header with this format stands before it or none, and a trace or none.
pub fn read_line(line: &[u8], format: Option<u32>, begun: bool) -> Result<Line, BadLine>
    requires { IfSome format IsFormat }
    ensures fault { IfErr result (λ kind. fault_of format begun line.now ≡ Some kind) }
    ensures said { IfOk result (λ said. Says said format begun line.now) }
{
    let content = content(line);
    let Some(first) = first_byte(content) else {
        return Ok(Line::Skipped);
    };
    if first == b'#' {
        return Ok(Line::Skipped);
    }
    let Some((word, rest)) = first_field(content) else {
        return Ok(Line::Skipped);
    };
    if !is_ascii(content) {
        return Err(BadLine::NotAscii);
    }
    match format {
        Some(format) => read_words(word, rest, format, begun),
        None => Ok(Line::Header(read_header(word, rest)?)),
    }
}

// The format that a header names: it is `flock 1`, `flock 2` or `flock 3`.
fn read_header(word: &[u8], rest: &[u8]) -> Result<u32, BadLine>
    ensures fault { IfErr result (λ kind. (kind ≡ BadLine.NoHeader)
        × (header_of (word.now ∷ fields_in rest.now) ≡ None)) }
    ensures named { IfOk result (λ format. header_of (word.now ∷ fields_in rest.now) ≡ Some format) }
    ensures format { IfOk result IsFormat }
{
    match (word, only_field(rest)) {
        (b"flock", Some(number)) => read_format(number).ok_or(BadLine::NoHeader),
        _ => Err(BadLine::NoHeader),
    }
}

// The format that a field names.
fn read_format(number: &[u8]) -> Option<u32>
    ensures named { result ≡ format_named number.now }
    ensures format { IfSome result IsFormat }
{
    match number {
        b"1" => Some(1),
        b"2" => Some(2),
        b"3" => Some(3),
        _ => None,
    }
}

// The one field that there is.
fn only_field(rest: &[u8]) -> Option<&[u8]>
    ensures one { IfSome result (λ only. fields_in rest.now ≡ only.now ∷ []) }
    ensures none { IfNone result (length (fields_in rest.now) ≢ 1) }
{
    let (only, rest) = first_field(rest)?;
    match first_field(rest) {
        Some(_) => None,
        None => Some(only),
    }
}

// A line behind a header with this format.
fn read_words(word: &[u8], rest: &[u8], format: u32, begun: bool) -> Result<Line, BadLine>
    requires { IsFormat format }
    ensures fault { IfErr result (λ kind. fault_of_words format begun (word.now ∷ fields_in rest.now) ≡ Some kind) }
    ensures said { IfOk result (λ said. SaysWords said format begun word.now (fields_in rest.now)) }
{
    match word {
        b"trace" => read_trace(rest),
        b"get" => Ok(Line::Ask(Op::Get(read_key(rest, begun)?))),
        b"del" => Ok(Line::Ask(Op::Del(read_key(rest, begun)?))),
        b"ins" => {
            let (key, value) = read_pair(rest, begun, false)?;
            Ok(Line::Ask(Op::Ins(key, value)))
        }
        b"put" => read_put(rest, format, begun),
        b"mov" => read_mov(rest, format, begun),
        _ => Err(BadLine::UnknownWord),
    }
}

// Nothing stands behind `trace`.
fn read_trace(rest: &[u8]) -> Result<Line, BadLine>
    ensures fault { IfErr result (λ kind. first_found (request_tests true 0 false (fields_in rest.now)) ≡ Some kind) }
    ensures said { IfOk result (λ said. (said ≡ Line.Trace) × (fields_in rest.now ≡ [])) }
{
    match first_field(rest) {
        Some(_) => Err(BadLine::ExtraField),
        None => Ok(Line::Trace),
    }
}

// The key of a request that has no value.
fn read_key(rest: &[u8], begun: bool) -> Result<u32, BadLine>
    ensures fault { IfErr result (λ kind. first_found (request_tests begun 1 false (fields_in rest.now)) ≡ Some kind) }
    ensures none { OnOk result (first_found (request_tests begun 1 false (fields_in rest.now)) ≡ None) }
    ensures key { IfOk result (λ key. (key ≡ value_of (field (fields_in rest.now) 0)) × (key ≤ 4294967293)) }
    ensures begun { OnOk result (begun ≡ true) }
{
    if !begun {
        return Err(BadLine::RequestBeforeTrace);
    }
    let (key, rest) = first_field(rest).ok_or(BadLine::MissingField)?;
    if first_field(rest).is_some() {
        return Err(BadLine::ExtraField);
    }
    let key = number(key).ok_or(BadLine::BadNumber)?;
    key_in_range(key)
}

// A number is a key, or too large for one.
fn key_in_range(value: u64) -> Result<u32, BadLine>
    ensures fault { IfErr result (λ kind. (kind ≡ BadLine.KeyTooLarge) × (4294967293 < value)) }
    ensures key { IfOk result (λ key. (key ≡ value) × (key ≤ 4294967293)) }
{
    if value > u64::from(MAX_KEY) {
        return Err(BadLine::KeyTooLarge);
    }
    Ok(value as u32)
}

// A number is a value, or too large for one.
fn value_in_range(value: u64) -> Result<u32, BadLine>
    ensures fault { IfErr result (λ kind. (kind ≡ BadLine.ValueTooLarge) × (4294967295 < value)) }
    ensures value { IfOk result (λ found. found ≡ value) }
{
    if value > u64::from(u32::MAX) {
        return Err(BadLine::ValueTooLarge);
    }
    Ok(value as u32)
}

// What stands behind `put`, a word that a text of format 1 doesn't know.
fn read_put(rest: &[u8], format: u32, begun: bool) -> Result<Line, BadLine>
    ensures fault { IfErr result (λ kind. first_found ((not (nat_le 2 format), BadLine.UnknownWord)
        ∷ request_tests begun 2 false (fields_in rest.now)) ≡ Some kind) }
    ensures none { OnOk result (first_found ((not (nat_le 2 format), BadLine.UnknownWord)
        ∷ request_tests begun 2 false (fields_in rest.now)) ≡ None) }
    ensures said { IfOk result (λ said. said
        ≡ Line.Ask (Put (value_of (field (fields_in rest.now) 0)) (value_of (field (fields_in rest.now) 1)))) }
    ensures key { OnOk result (value_of (field (fields_in rest.now) 0) ≤ 4294967293) }
    ensures format { OnOk result (2 ≤ format) }
    ensures begun { OnOk result (begun ≡ true) }
{
    if format < 2 {
        return Err(BadLine::UnknownWord);
    }
    let (key, value) = read_pair(rest, begun, false)?;
    Ok(Line::Ask(Op::Put(key, value)))
}

// What stands behind `mov`, a word that came with format 3.
fn read_mov(rest: &[u8], format: u32, begun: bool) -> Result<Line, BadLine>
    ensures fault { IfErr result (λ kind. first_found ((not (nat_le 3 format), BadLine.UnknownWord)
        ∷ request_tests begun 2 true (fields_in rest.now)) ≡ Some kind) }
    ensures none { OnOk result (first_found ((not (nat_le 3 format), BadLine.UnknownWord)
        ∷ request_tests begun 2 true (fields_in rest.now)) ≡ None) }
    ensures said { IfOk result (λ said. said
        ≡ Line.Ask (Mov (value_of (field (fields_in rest.now) 0)) (value_of (field (fields_in rest.now) 1)))) }
    ensures from { OnOk result (value_of (field (fields_in rest.now) 0) ≤ 4294967293) }
    ensures to { OnOk result (value_of (field (fields_in rest.now) 1) ≤ 4294967293) }
    ensures format { OnOk result (3 ≤ format) }
    ensures begun { OnOk result (begun ≡ true) }
{
    if format < 3 {
        return Err(BadLine::UnknownWord);
    }
    let (from, to) = read_pair(rest, begun, true)?;
    Ok(Line::Ask(Op::Mov(from, to)))
}

// The two numbers of a request: a key, and a second key or a value.
fn read_pair(rest: &[u8], begun: bool, two_keys: bool) -> Result<(u32, u32), BadLine>
    ensures fault { IfErr result (λ kind. first_found (request_tests begun 2 two_keys (fields_in rest.now))
        ≡ Some kind) }
    ensures none { OnOk result (first_found (request_tests begun 2 two_keys (fields_in rest.now)) ≡ None) }
    ensures key { IfOk result (λ pair. (pair.0 ≡ value_of (field (fields_in rest.now) 0)) × (pair.0 ≤ 4294967293)) }
    ensures second { IfOk result (λ pair. pair.1 ≡ value_of (field (fields_in rest.now) 1)) }
    ensures keys { IfOk result (λ pair. two_keys ≡ true → pair.1 ≤ 4294967293) }
    ensures begun { OnOk result (begun ≡ true) }
{
    if !begun {
        return Err(BadLine::RequestBeforeTrace);
    }
    let (first, rest) = first_field(rest).ok_or(BadLine::MissingField)?;
    let (second, rest) = first_field(rest).ok_or(BadLine::MissingField)?;
    if first_field(rest).is_some() {
        return Err(BadLine::ExtraField);
    }
    let first = number(first).ok_or(BadLine::BadNumber)?;
    let second = number(second).ok_or(BadLine::BadNumber)?;
    let key = key_in_range(first)?;
    if two_keys {
        return Ok((key, key_in_range(second)?));
    }
    Ok((key, value_in_range(second)?))
}
