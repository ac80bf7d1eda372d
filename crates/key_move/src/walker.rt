//! The walk leads a plan.
ghost use Rattle.key_move.specs.Planned.{move_way};

use crate::walk::MoveWalk;
use lock_walks::Walker;
use machine_states::body_terms::{Place, Thunk, Word};

impl Walker for MoveWalk {
    ghost way = { move_way };

    #[inline(always)]
    fn wanted(&self) -> Option<u64> {
        self.wanted()
    }

    #[inline(always)]
    fn feed(&mut self, word: Word) {
        self.feed(word);
    }

    #[inline(always)]
    fn is_on_links(&self) -> bool {
        self.is_on_links()
    }

    #[inline(always)]
    fn is_refused(&self) -> bool {
        self.is_refused()
    }

    fn is_mark(&self, _place: Place) -> bool {
        false
    }

    #[inline(always)]
    fn thunk(&self, number: u32) -> Thunk {
        self.thunk(number)
    }
}
