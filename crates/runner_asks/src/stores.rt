//! What was stored or found last in the words of a descriptor.
ghost use Rattle.std.specs.Prelude.{◌≡◌, ◌<◌, ◌+◌, ◌^◌, None, length};
ghost use Rattle.runner_steps.specs.runner_parts.specs.Tests.{last_stored, is_some_of, are_stored, is_prepared};

use runner_steps::body_terms::Thunk;
use runner_steps::runner_parts::{Stored, thunk_words};
use runner_steps::table_words::PART_WORDS;

/// What was stored or found last in this word of the descriptor, if anything was.
pub fn last_stored(stored: &[Stored], descriptor: u32, word: u32) -> Option<u64>
    ensures { result ≡ last_stored stored.now descriptor word None }
{
    let mut last = None;
    for x in stored {
        if x.descriptor == descriptor && x.word == word {
            last = Some(x.number);
        }
    }
    last
}

/// Whether it is this number.
fn is_some_of(last: Option<u64>, number: u64) -> bool
    ensures { result ≡ is_some_of last number }
{
    match last {
        None => false,
        Some(stored) => stored == number,
    }
}

/// Whether these numbers were stored or found last in the descriptor's words, from this one on.
fn are_stored(stored: &[Stored], descriptor: u32, from: u32, numbers: &[u64]) -> bool
    requires { from + length numbers.now < 2 ^ 32 }
    ensures { result ≡ are_stored stored.now descriptor from numbers.now }
{
    let mut word = from;
    for number in numbers {
        if !is_some_of(last_stored(stored, descriptor, word), *number) {
            return false;
        }
        word += 1;
    }
    true
}

/// Whether the descriptor's words were stored or found with this thunk, no done, an empty log and no link.
pub fn is_prepared(stored: &[Stored], descriptor: u32, thunk: &Thunk) -> bool
    ensures { result ≡ is_prepared stored.now descriptor thunk.now }
{
    are_stored(stored, descriptor, 0, &thunk_words(thunk))
        && are_stored(stored, descriptor, 12, &[0; PART_WORDS + 2])
}
