//! Looks into what was read.
ghost use Rattle.std.specs.Prelude.{◌≡◌, slice_index};
ghost use Rattle.runner_parts.specs.Tests.{has_pair};

use runner_parts::structure_laws::body_terms::{Place, Word};

/// The word that was found at the place with this number, and 0 where that place wasn't loaded.
pub fn word_at(words: &[u64], number: usize) -> Word
    ensures { result ≡ slice_index words.now number }
{
    match words.get(number) {
        Some(bits) => Word::from_bits(*bits),
        None => Word::from_bits(0),
    }
}

/// Whether this word was read in this place.
pub fn has_pair(readings: &[(Place, Word)], place: Place, word: Word) -> bool
    ensures { result ≡ has_pair readings.now place word }
{
    readings
        .iter()
        .any(|&(read, found)| read == place && found == word)
}
