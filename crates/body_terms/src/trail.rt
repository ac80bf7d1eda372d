//! What the runners of a section agreed on.
ghost use Rattle.std.specs.Prelude.{◌≡◌, ◌<◌, [], ◌∷◌, ◌++◌, false, length, slice_index};

use crate::word::Word;
use arrayvec::ArrayVec;
use std::marker::Model;

/// The agreed words of a section's log, in order.
///
/// Contracts see the list of the words and whether the run was late.
#[derive(Debug, Drop)]
pub struct Trail {
    /// The agreed words, from the first on.
    pub words: ArrayVec<u64, 64>,
    /// Whether the run found its section done as it began.
    pub late: bool,
}

impl Model for Trail {
    ghost use Rattle.body_terms.specs.Trail.{Agreed};

    ghost Value = { Agreed };

    ghost view = { λ t. record { words = t.words.items; late = t.late } };
}

impl Trail {
    /// The trail of a run that has agreed on nothing yet, and isn't late.
    pub fn new() -> Trail
        ensures words { result.words ≡ [] }
        ensures late { result.late ≡ false }
    {
        Trail {
            words: ArrayVec::new(),
            late: false,
        }
    }

    /// Forgets its words, for a run that has agreed on nothing yet and is late or not. A trail that is kept and
    /// used again is cheaper than another one made.
    pub fn restart(&mut self, late: bool)
        ensures words { self.new.words ≡ [] }
        ensures late { self.new.late ≡ late }
    {
        self.words.clear();
        self.late = late;
    }

    /// Another trail with the same words.
    #[inline(always)]
    pub fn copied(&self) -> Trail
        ensures { result ≡ self.now }
    {
        let mut copy = Trail::new();
        let _ = copy.words.try_extend_from_slice(self.words.as_slice());
        copy.late = self.late;
        copy
    }

    /// The agreed word at this place of the log, as a cell's word.
    pub fn word(&self, log: u32) -> Word
        requires { log < length self.now.words }
        ensures { result ≡ slice_index self.now.words log }
    {
        Word::from_bits(self.words.as_slice()[log as usize])
    }

    /// One more agreed word.
    pub fn agree(&mut self, word: u64)
        requires { length self.old.words < 64 }
        ensures { self.new ≡ record self.old { words = self.old.words ++ word ∷ [] } }
    {
        self.words.push(word);
    }
}
