//! The walk of the list leads a plan.
ghost use Rattle.sorted_list.specs.Planned.{list_way};

use list_walks::ListWalk;
use list_walks::structure_laws::body_terms::{Place, Thunk, Word};
use lock_walks::Walker;

/// The walk of a key along the list, as plans make it.
#[derive(Drop)]
pub struct SortedWalk {
    pub(crate) walk: ListWalk,
}

impl Walker for SortedWalk {
    ghost way = { list_way };

    #[inline(always)]
    fn wanted(&self) -> Option<u64> {
        self.walk.wanted()
    }

    #[inline(always)]
    fn feed(&mut self, word: Word) {
        self.walk.feed(word);
    }

    #[inline(always)]
    fn is_on_links(&self) -> bool {
        self.walk.is_on_links()
    }

    fn is_refused(&self) -> bool {
        self.walk.is_refused()
    }

    fn is_mark(&self, place: Place) -> bool {
        place % 5 == 4
    }

    fn thunk(&self, number: u32) -> Thunk {
        self.walk.thunk(number)
    }
}
