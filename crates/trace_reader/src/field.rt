// The fields of a line, and the numbers that they are.
ghost use Rattle.std.specs.Prelude.{◌≡◌, ◌==◌, ℕ, ◌<◌, ◌≤◌, ◌^◌, ◌∷◌, [], IfNone, IfSome, OnSome, false, true, length, min, not, position, take};
ghost use Rattle.std.specs.Char.{is_ascii};
ghost use Rattle.std.specs.List.{list_all};
ghost use Rattle.trace_reader.specs.Fields.{is_blank, is_comment, fields_in, is_number, value_of, content_of};

/// The line without a carriage return that ends it.
pub fn content(line: &[u8]) -> &[u8]
    ensures { result.now ≡ content_of line.now }
{
    let len = line.len();
    if len > 0 && line[len - 1] == b'\r' {
        &line[..len - 1]
    } else {
        line
    }
}

/// The byte with which the first field begins. None where there are only blanks.
///
/// Where that field ends plays no part, so a long comment isn't searched for it.
pub fn first_byte(line: &[u8]) -> Option<u8>
    ensures none { IfNone result (fields_in line.now ≡ []) }
    ensures some { IfSome result (λ byte. is_comment (fields_in line.now) ≡ (byte == 35)) }
{
    let Some(start) = find_word(line) else {
        return None;
    };
    Some(line[start])
}

/// The first field, and what stands behind it. None where there are only blanks.
pub fn first_field(line: &[u8]) -> Option<(&[u8], &[u8])>
    ensures none { IfNone result (fields_in line.now ≡ []) }
    ensures some { IfSome result (λ found. fields_in line.now ≡ found.0.now ∷ fields_in found.1.now) }
    ensures begun { IfSome result (λ found. 0 < length found.0.now) }
{
    let Some(start) = find_word(line) else {
        return None;
    };
    let words = &line[start..];
    let end = find_blank(words).unwrap_or(words.len());
    Some((&words[..end], &words[end..]))
}

// Where the first byte stands that isn't blank.
fn find_word(line: &[u8]) -> Option<usize>
    ensures { result ≡ position (λ byte. not (is_blank byte)) line.now }
{
    let skipped = blank_runs(line);
    match find_letter(&line[skipped..]) {
        Some(start) => Some(skipped + start),
        None => None,
    }
}

fn find_letter(line: &[u8]) -> Option<usize>
    ensures { result ≡ position (λ byte. not (is_blank byte)) line.now }
{
    line.iter().position(|byte| !is_blank(*byte))
}

// How many bytes are tested at once.
const RUN: usize = 16;

// So many bytes at the front are blanks: whole runs of them, of which there may be one more.
fn blank_runs(line: &[u8]) -> usize
    ensures within { result ≤ length line.now }
    ensures blank { list_all is_blank (take result line.now) ≡ true }
{
    let mut len = 0;
    while line.len() - len >= RUN && are_blank(&line[len..len + RUN]) {
        len += RUN;
    }
    len
}

// Blanks alone. No byte ends the test early, so that they can be tested at once.
fn are_blank(bytes: &[u8]) -> bool
    ensures { result ≡ list_all is_blank bytes.now }
{
    let mut all = true;
    for byte in bytes {
        all = all & is_blank(*byte);
    }
    all
}

// Where the first blank stands.
fn find_blank(line: &[u8]) -> Option<usize>
    ensures { result ≡ position is_blank line.now }
{
    line.iter().position(|byte| is_blank(*byte))
}

// A space or a tab.
fn is_blank(byte: u8) -> bool
    ensures { result ≡ is_blank byte }
{
    byte == b' ' || byte == b'\t'
}

/// Bytes up to 127 alone.
pub fn is_ascii(line: &[u8]) -> bool
    ensures { result ≡ list_all is_ascii line.now }
{
    line.iter().all(|byte| byte.is_ascii())
}

/// What a field of decimal digits stands for, or 2^32 where that is more. None where it isn't one or more digits.
///
/// One pass tests the digits and adds them up.
pub fn number(field: &[u8]) -> Option<u64>
    ensures none { IfNone result (is_number field.now ≡ false) }
    ensures digits { OnSome result (is_number field.now ≡ true) }
    ensures value { IfSome result (λ value. value ≡ min (value_of field.now) (2 ^ 32)) }
{
    let mut value = 0;
    for byte in field {
        if !byte.is_ascii_digit() {
            return None;
        }
        value = (value * 10 + u64::from(byte - b'0')).min(1 << 32);
    }
    if field.is_empty() {
        return None;
    }
    Some(value)
}
