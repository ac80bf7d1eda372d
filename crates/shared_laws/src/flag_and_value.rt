//! A key's value in two words: a flag that is 1 where the key has one, and the value.
ghost use Rattle.std.specs.Prelude.{◌≡◌};
ghost use Rattle.shared_laws.specs.Flagged.{held, flag_for, value_for};

use structure_laws::body_terms::Word;

/// What a key has, by the words of its flag and of its value.
pub fn held(flag: Word, value: Word) -> Option<u32>
    ensures { result ≡ held flag value }
{
    if flag.value() == 1 {
        Some(value.value())
    } else {
        None
    }
}

/// The flag of a key that has this, as an operand.
pub fn flag_for(has: Option<u32>) -> u64
    ensures { result ≡ flag_for has }
{
    if has.is_some() { 1 } else { 0 }
}

/// Its value, 0 where it has none.
pub fn value_for(has: Option<u32>) -> u64
    ensures { result ≡ value_for has }
{
    match has {
        Some(value) => u64::from(value),
        None => 0,
    }
}
