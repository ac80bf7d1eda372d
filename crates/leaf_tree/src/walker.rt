//! The walk of the tree leads a plan.
ghost use Rattle.leaf_tree.specs.Planned.{tree_way};

use lock_walks::Walker;
use tree_walks::TreeWalk;
use tree_walks::structure_laws::body_terms::{Place, Thunk, Word};

/// The walk of a key through the tree, as plans make it.
#[derive(Drop)]
pub struct LeafWalk {
    pub(crate) walk: TreeWalk,
}

impl Walker for LeafWalk {
    ghost way = { tree_way };

    #[inline(always)]
    fn wanted(&self) -> Option<u64> {
        self.walk.wanted()
    }

    #[inline(always)]
    fn feed(&mut self, word: Word) {
        self.walk.feed(word);
    }

    #[inline(always)]
    fn is_on_links(&self) -> bool {
        self.walk.is_on_links()
    }

    #[inline(always)]
    fn turns_aside(&self) -> bool {
        self.walk.turns_aside()
    }

    #[inline(always)]
    fn is_refused(&self) -> bool {
        self.walk.is_refused()
    }

    #[inline(always)]
    fn is_mark(&self, place: Place) -> bool {
        place % 5 == 4
    }

    #[inline(always)]
    fn thunk(&self, number: u32) -> Thunk {
        self.walk.thunk(number)
    }
}
