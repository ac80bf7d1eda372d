//! The direct table is a structure, and requests are planned on it.
ghost use Rattle.std.specs.Prelude.{◌≡◌, true, refl, IfOk};
ghost use Rattle.std.specs.FinMap.{entries};
ghost use Rattle.fixed_walks.specs.map_history.specs.Replay.{Pairs};
ghost use Rattle.direct_laws.specs.Direct.{direct_cells, direct};
ghost use Rattle.direct_laws.proofs.DirectCells.{is_keyed, direct_laws, direct_plans, direct_retires};
ghost use Rattle.fixed_walks.specs.try_lock.specs.Contents.{StandFor, NamesNone};
ghost use Rattle.fixed_walks.specs.Fixed.{fixed_planning};
ghost use Rattle.fixed_walks.specs.Keys.{key_course};
ghost use Rattle.fixed_walks.proofs.Gets.{key_gets};
ghost use Rattle.fixed_walks.proofs.Steady.{fixed_steady};

use crate::table::DirectTable;
use direct_laws::key_cells::{fill_body, key_fits};
use fixed_walks::lock_walks::Planner;
use fixed_walks::lock_walks::version_words::Words;
use fixed_walks::structure_laws::Structure;
use fixed_walks::structure_laws::body_terms::{Body, Place, Thunk, Word};
use fixed_walks::structure_laws::map_history::Op;
use fixed_walks::structure_laws::table_words::Layout;
use fixed_walks::{FixedWalk, key_pairs, key_walk};
use std::alloc::{AllocError, Global};

impl Structure for DirectTable {
    ghost meaning = { λ s. direct s.base s.keys };

    ghost MAP = { true };

    const MAP: bool = true;

    fn fixed_cells(&self) -> u32 {
        self.base + 3 * self.keys
    }

    fn fixed_slots(&self) -> u32 {
        0
    }

    fn first_value(&self, _place: Place) -> u32 {
        0
    }

    fn is_lock(&self, place: Place) -> bool {
        place >= self.base && (place - self.base < 3 * self.keys && (place - self.base) % 3 == 0)
    }

    fn body(&self, thunk: &Thunk) -> Body {
        let mut body = Body::empty();
        fill_body(self, thunk, &mut body);
        body
    }

    fn body_in(&self, thunk: &Thunk, body: &mut Body) {
        fill_body(self, thunk, body);
    }

    fn reaches(&self, _readings: &[(Place, Word)], _slot: u32) -> bool {
        false
    }

    fn fits(&self, _layout: Layout, op: Op, readings: &[(Place, Word)], thunk: &Thunk) -> bool {
        key_fits(self, op, readings, thunk)
    }

    ghost serves = { λ s. refl };

    ghost laws = { λ s. direct_laws s.base s.keys s.few };
}

impl Planner for DirectTable {
    type Walk = FixedWalk<DirectTable>;

    ghost planning = { λ s. fixed_planning (key_course (direct_cells s.base s.keys)) };

    fn serves(&self, op: Op) -> bool {
        op.other_key().is_none() && op.key() < self.keys
    }

    fn walk(&self, layout: Layout, op: Op) -> FixedWalk<DirectTable> {
        let table = DirectTable {
            base: self.base,
            keys: self.keys,
        };
        key_walk(table, layout, op)
    }

    fn contents(&self, alloc: Global, words: &Words<Self>) -> Result<Vec<(u32, u32)>, AllocError>
        requires structure { self.now ≡ words.now.structure }
        requires stand { (pairs : Pairs) × StandFor (direct self.now.base self.now.keys) words.now pairs }
        requires closed { NamesNone (direct self.now.base self.now.keys) words.now }
        ensures contents { IfOk result (λ items. (pairs : Pairs)
            → StandFor (direct self.now.base self.now.keys) words.now pairs → items.items ≡ entries pairs) }
    {
        key_pairs(alloc, self, words)
    }

    ghost plans_lawfully = { λ s. direct_plans s.base s.keys s.few };

    ghost walks_steadily = { λ s. fixed_steady (direct s.base s.keys) (key_course (direct_cells s.base s.keys)) };

    ghost retires_few = { λ s. direct_retires s.base s.keys s.few };

    ghost gets_are_light = { λ s. key_gets (direct_cells s.base s.keys) (is_keyed s.base s.keys s.few) };
}
