// Numbers on the command line.
ghost use Rattle.std.specs.Prelude.{◌≡◌, ◌==◌, ◌^◌, ◌<◌, min, position};
ghost use Rattle.std.specs.Char.{is_ascii_digit};
ghost use Rattle.std.specs.List.{list_all};
ghost use Rattle.trace_reader.specs.Fields.{is_number, value_of};
ghost use Rattle.command_line.specs.Numbers.{exponent_in, number_in, powers};

// The powers of two, each in the place of its exponent.
const POWERS: [u64; 13] = [1, 2, 4, 8, 16, 32, 64, 128, 256, 512, 1024, 2048, 4096];

// More than any number in a range.
const CAP: u64 = 1 << 48;

/// The number that a text of decimal digits stands for, if it is in the range.
pub fn number_in(text: &str, least: u64, greatest: u64) -> Option<u64>
    requires { greatest < 2 ^ 48 }
    ensures { result ≡ number_in least greatest text.now }
{
    if !is_number(text.as_bytes()) {
        return None;
    }
    let value = capped_value(text.as_bytes());
    if least <= value && value <= greatest {
        Some(value)
    } else {
        None
    }
}

/// The same of a number that fits 32 bits.
pub fn small_number_in(text: &str, least: u32, greatest: u32) -> Option<u32>
    ensures { result ≡ number_in least greatest text.now }
{
    let value = number_in(text, u64::from(least), u64::from(greatest))?;
    Some(value as u32)
}

/// The exponent of a power of two from 1 to 4096.
pub fn exponent_in(text: &str) -> Option<u32>
    ensures { result ≡ exponent_in text.now }
{
    let number = number_in(text, 1, 4096)?;
    exponent_of(number)
}

fn exponent_of(number: u64) -> Option<u32>
    ensures { result ≡ position (λ power. power == number) powers }
{
    let place = place_of(number)?;
    Some(place as u32)
}

fn place_of(number: u64) -> Option<usize>
    ensures { result ≡ position (λ power. power == number) powers }
{
    POWERS.iter().position(|power| *power == number)
}

// One or more decimal digits.
fn is_number(text: &[u8]) -> bool
    ensures { result ≡ is_number text.now }
{
    !text.is_empty() && all_digits(text)
}

fn all_digits(text: &[u8]) -> bool
    ensures { result ≡ list_all is_ascii_digit text.now }
{
    text.iter().all(|byte| byte.is_ascii_digit())
}

// What digits stand for, or the cap where that is more.
fn capped_value(digits: &[u8]) -> u64
    ensures { result ≡ min (value_of digits.now) (2 ^ 48) }
{
    let mut value = 0;
    for digit in digits {
        value = (value * 10 + u64::from(digit.saturating_sub(b'0'))).min(CAP);
    }
    value
}
