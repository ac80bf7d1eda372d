//! A section that looks at one cell, or at two.
ghost use Rattle.std.specs.Prelude.{◌≡◌};

use machine_states::body_terms::{Place, Word};

/// A cell, and the word that is wanted of it.
#[derive(Clone, Copy, Debug, PartialEq, Eq)]
pub struct WantedCell {
    pub place: Place,
    pub word: Word,
}

impl WantedCell {
    /// The cell at this place, of which the word with these bits is wanted.
    #[inline(always)]
    pub fn new(place: Place, bits: u64) -> WantedCell
        ensures { result ≡ record { place = place; word = bits } }
    {
        WantedCell {
            place,
            word: Word::from_bits(bits),
        }
    }
}

/// What a body does that looks at one cell or two: it loads each, wants one word of it, and is stamped and answered.
#[derive(Clone, Copy, Debug, PartialEq, Eq)]
pub struct Glance {
    /// The cell that is loaded first.
    pub first: WantedCell,
    /// The cell that is loaded behind it, if there is one.
    pub second: Option<WantedCell>,
    /// The reply word.
    pub reply: u64,
}
