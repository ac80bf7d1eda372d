// The lines of a trace text, each with the line feed that ends it.
ghost use Rattle.std.specs.Prelude.{◌≡◌, ◌++◌, OnOk, codes, decimal, flat_map};
ghost use Rattle.trace_reader.specs.Printed.{beginnings, header_line, line_of, with_feed};

use itoa::Buffer;
use map_history::Op;
use std::alloc::AllocError;

/// Adds the header that names this format.
pub fn push_header(text: &mut Vec<u8>, format: u32) -> Result<(), AllocError>
    ensures { OnOk result (text.new.items ≡ text.old.items ++ with_feed (header_line format)) }
{
    push_word(text, b"flock ", format)?;
    text.push(b'\n')?;
    Ok(())
}

/// Adds lines that begin so many traces.
pub fn push_beginnings(text: &mut Vec<u8>, count: u32) -> Result<(), AllocError>
    ensures { OnOk result (text.new.items ≡ text.old.items ++ flat_map with_feed (beginnings count)) }
{
    let mut left = count;
    while left > 0 {
        text.extend_from_slice(b"trace\n")?;
        left -= 1;
    }
    Ok(())
}

/// Adds the line of a request.
pub fn push_line(text: &mut Vec<u8>, op: Op) -> Result<(), AllocError>
    ensures { OnOk result (text.new.items ≡ text.old.items ++ with_feed (line_of op)) }
{
    push_op(text, op)?;
    text.push(b'\n')?;
    Ok(())
}

fn push_op(text: &mut Vec<u8>, op: Op) -> Result<(), AllocError>
    ensures { OnOk result (text.new.items ≡ text.old.items ++ line_of op) }
{
    match op {
        Op::Get(key) => push_word(text, b"get ", key),
        Op::Del(key) => push_word(text, b"del ", key),
        Op::Ins(key, value) => {
            push_word(text, b"ins ", key)?;
            push_word(text, b" ", value)
        }
        Op::Put(key, value) => {
            push_word(text, b"put ", key)?;
            push_word(text, b" ", value)
        }
        Op::Mov(from, to) => {
            push_word(text, b"mov ", from)?;
            push_word(text, b" ", to)
        }
    }
}

// Adds bytes and a number.
fn push_word(text: &mut Vec<u8>, word: &[u8], number: u32) -> Result<(), AllocError>
    ensures { OnOk result (text.new.items ≡ text.old.items ++ (word.now ++ decimal number)) }
{
    text.extend_from_slice(word)?;
    text.extend_from_slice(Buffer::new().format(number).as_bytes())?;
    Ok(())
}
