//! The words of a closed table.
ghost use Rattle.std.specs.Prelude.{◌≡◌, ◌<◌, length, Some, None, if◌then◌else◌, ◌==◌};
ghost use Rattle.machine_states.specs.table_words.specs.declared.spot.Spot.TheVariants as spots;
ghost use Rattle.version_words.specs.TableState.{AreShown, word_of, HasWord, entry_of};

use crate::rule::Setup;
use atomic_table::Closed;
use machine_states::body_terms::{Place, Thunk, Word};
use machine_states::structure_laws::Structure;
use machine_states::table_words::Spot;
use std::alloc::Global;
use std::marker::Model;

/// The words of a closed table, with its structure, its layout and its requests. `FlockTable::close` alone makes them:
/// the words are those of a state of the machine that enabled events lead to.
pub struct Words<S: Structure> {
    pub(crate) closed: Closed<Thunk, Global>,
    pub(crate) setup: Setup<S>,
}

impl<S: Structure> Model for Words<S> {
    ghost use Rattle.std.specs.Slots.{slots_items};
    ghost use Rattle.version_words.specs.TableState.{WordsState};
    ghost use Rattle.version_words.specs.Closed.{IsLaid};

    ghost Value = { WordsState S };

    ghost view = { λ a. record {
      structure = a.setup.structure;
      layout = a.setup.layout;
      requests = a.setup.requests.items;
      words = slots_items a.closed.words;
    } };

    ghost invariant = { λ a. IsLaid (S.meaning a.setup.structure) a.closed a.setup };
}

impl<S: Structure> Drop for Words<S> {
    fn drop(self) {
        let Words { closed, setup } = self;
        drop(setup);
        closed.free();
    }
}

impl<S: Structure> Words<S> {
    /// The request's stamp word and its reply word; None exactly where the stamp word is 0.
    pub fn entry(&self, request: u32) -> Option<(u64, u64)>
        requires { request < length self.now.requests }
        ensures { result ≡ entry_of (word_of (S.meaning self.now.structure) self.now (spots.Stamp request))
            (word_of (S.meaning self.now.structure) self.now (spots.Reply request)) }
    {
        let stamp = self.word(Spot::Stamp(request));
        let reply = self.word(Spot::Reply(request));
        if stamp == 0 {
            None
        } else {
            Some((stamp, reply))
        }
    }

    /// The word of this cell.
    pub fn cell(&self, place: Place) -> Word
        requires { HasWord (S.meaning self.now.structure) self.now (spots.Cell place) }
        ensures { result ≡ word_of (S.meaning self.now.structure) self.now (spots.Cell place) }
    {
        Word::from_bits(self.word(Spot::Cell(place)))
    }

    /// The word at this spot.
    #[inline(always)]
    fn word(&self, spot: Spot) -> u64
        requires { HasWord (S.meaning self.now.structure) self.now spot }
        ensures { result ≡ word_of (S.meaning self.now.structure) self.now spot }
    {
        self.closed.word(self.setup.sizes.address(spot))
    }

    pub fn structure(&self) -> &S
        ensures { result.now ≡ self.now.structure }
    {
        &self.setup.structure
    }
}
