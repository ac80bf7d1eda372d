//! The walk over fixed places.
ghost use Rattle.std.specs.Prelude.{◌≡◌, [], true};
ghost use Rattle.fixed_walks.specs.Fixed.{places_for};
ghost use Rattle.fixed_walks.specs.Walk.{fixed_way};

use crate::course::FixedPlaces;
use arrayvec::ArrayVec;
use lock_walks::Walker;
use runner_parts::structure_laws::body_terms::{Place, Thunk, Word};
use runner_parts::structure_laws::map_history::Op;

/// How far the walk of an operation has come: the places that are ahead, the words that were found, and the last place
/// with its word.
#[derive(Drop)]
pub struct FixedWalk<C> {
    course: C,
    version_max: u32,
    op: Op,
    ahead: ArrayVec<Place, 16>,
    words: ArrayVec<u64, 16>,
    place: Place,
    word: Word,
}

impl<C: FixedPlaces> FixedWalk<C> {
    /// The walk of an operation that is served, which has loaded nothing.
    pub fn new(course: C, op: Op, version_max: u32) -> FixedWalk<C>
        requires { (C.course course).serves op ≡ true }
        ensures { result ≡ record {
          course = course;
          version_max = version_max;
          op = op;
          ahead = record { items = places_for (C.course course) op };
          words = record { items = [] };
          place = 0;
          word = 0;
        } }
    {
        let ahead = course.places(op);
        FixedWalk {
            course,
            version_max,
            op,
            ahead,
            words: ArrayVec::new(),
            place: 0,
            word: Word::from_bits(0),
        }
    }
}

impl<C: FixedPlaces> Walker for FixedWalk<C> {
    ghost way = { fixed_way C.course };

    #[inline(always)]
    fn wanted(&self) -> Option<u64> {
        match self.ahead.as_slice().first() {
            Some(place) => Some(u64::from(*place)),
            None => None,
        }
    }

    #[inline(always)]
    fn feed(&mut self, word: Word) {
        if let Some(place) = self.ahead.pop_at(0) {
            self.place = place;
        }
        if !self.words.is_full() {
            self.words.push(word.bits());
        }
        self.word = word;
    }

    fn is_refused(&self) -> bool {
        let free = self.word.value() == 0;
        let spent = u64::from(self.word.version()) + 2 > u64::from(self.version_max);
        self.ahead.is_empty() && !(free && !spent)
    }

    fn is_mark(&self, _place: Place) -> bool {
        false
    }

    fn thunk(&self, number: u32) -> Thunk {
        let (form, operands) = self.course.section(self.op, self.words.as_slice());
        Thunk {
            form,
            request: number,
            lock: self.place,
            word: self.word,
            operands,
        }
    }
}
