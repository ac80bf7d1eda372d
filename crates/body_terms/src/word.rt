//! Cell words: a value with the version at which it was written.
ghost use Rattle.std.specs.Prelude.{◌≡◌, ◌+◌, ◌<◌, ◌^◌};
ghost use Rattle.body_terms.specs.Word.{value_of, version_of, pack, next_word};

use std::marker::Model;

/// The number of a cell, counted from the first fixed cell.
pub type Place = u32;

/// One word of a cell: the value in the low 32 bits, the version in the high 32.
#[derive(Clone, Copy, Debug, PartialEq, Eq)]
pub struct Word {
    number: u64,
}

impl Model for Word {
    ghost use Rattle.std.specs.Prelude.{ℕ};

    ghost Value = { ℕ };

    ghost view = { λ w. w.number };

    ghost inverse = { λ n. record { number = n } };
}

impl Word {
    /// The word with this value and this version.
    pub fn pack(value: u32, version: u32) -> Word
        ensures number { result ≡ pack value version }
        ensures value { value_of result ≡ value }
        ensures version { version_of result ≡ version }
    {
        Word {
            number: ((version as u64) << 32) | value as u64,
        }
    }

    /// The word that stands in memory as this number.
    pub fn from_bits(bits: u64) -> Word
        ensures { result ≡ bits }
    {
        Word { number: bits }
    }

    /// The value.
    pub fn value(self) -> u32
        ensures { result ≡ value_of self }
    {
        (self.number & 0xffff_ffff) as u32
    }

    /// The version.
    pub fn version(self) -> u32
        ensures { result ≡ version_of self }
    {
        (self.number >> 32) as u32
    }

    /// The word that follows this one in its cell, with this value.
    pub fn next(self, value: u32) -> Word
        requires { version_of self + 1 < 2 ^ 32 }
        ensures { result ≡ next_word self value }
    {
        Word::pack(value, self.version() + 1)
    }

    /// The number that stands in memory for the word.
    pub fn bits(self) -> u64
        ensures number { result ≡ self }
        ensures parts { pack (value_of result) (version_of result) ≡ result }
    {
        self.number
    }
}
