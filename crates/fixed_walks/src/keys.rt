//! The walk of a key, and the pairs of a closed table, for a structure of keys' cells.
ghost use Rattle.std.specs.Prelude.{◌≡◌, ◌+◌, ◌<◌, ◌≤◌, ◌++◌, ◌∷◌, [], true, length, IfOk};
ghost use Rattle.std.specs.FinMap.{entries};
ghost use Rattle.runner_parts.specs.structure_laws.specs.map_history.specs.Replay.{Pairs};
ghost use Rattle.key_cells.specs.Keyed.{cell_place, keyed, serves_key};
ghost use Rattle.key_cells.specs.Steps.{part};
ghost use Rattle.lock_walks.specs.Way.{Leads};
ghost use Rattle.lock_walks.specs.try_lock.specs.Contents.{StandFor};
ghost use Rattle.fixed_walks.specs.Keys.{key_course, Means, word_at, held_by};
ghost use Rattle.fixed_walks.specs.Walk.{fixed_way};

use crate::course::FixedPlaces;
use crate::walk::FixedWalk;
use arrayvec::ArrayVec;
use key_cells::shared_laws::{changes_at, left_at, pairs_by_key, reply_at};
use key_cells::{KeyCells, word_at};
use lock_walks::version_words::Words;
use runner_parts::block_words::table_words::Layout;
use runner_parts::structure_laws::Structure;
use runner_parts::structure_laws::body_terms::Place;
use runner_parts::structure_laws::map_history::Op;
use std::alloc::{AllocError, Global};

impl<C: KeyCells> FixedPlaces for C {
    ghost course = { λ c. key_course (C.keyed c) };

    fn places(&self, op: Op) -> ArrayVec<Place, 16> {
        let mut places = ArrayVec::new();
        push_cell(self, op.key(), 0, &mut places);
        push_cell(self, op.key(), 1, &mut places);
        push_cell(self, op.key(), 2, &mut places);
        places.push(self.lock_of(op.key()));
        places
    }

    fn section(&self, op: Op, words: &[u64]) -> (u64, [u64; 8]) {
        let had = self.held(words);
        let left = left_at(had, op);
        let form = if changes_at(had, op) { 2 } else { 1 };
        let reply = reply_at(had, op).word();
        let new = (
            self.value(left, 0),
            self.value(left, 1),
            self.value(left, 2),
        );
        let read = (
            word_at(words, 0).bits(),
            word_at(words, 1).bits(),
            word_at(words, 2).bits(),
        );
        let operands = [
            read.0,
            read.1,
            read.2,
            new.0,
            new.1,
            new.2,
            reply,
            u64::from(op.key()),
        ];
        (form, operands)
    }
}

/// Adds the place of the key's cell with this number, where it has one.
fn push_cell<C: KeyCells>(cells: &C, key: u32, number: u32, places: &mut ArrayVec<Place, 16>)
    requires key { key < (C.keyed cells.now).keys }
    requires room { length places.old.items ≤ 14 }
    ensures items { places.new.items ≡ places.old.items
        ++ part (C.keyed cells.now).count number (cell_place (C.keyed cells.now) key number ∷ []) }
    ensures length { length places.new.items ≤ length places.old.items + 1 }
{
    if number < cells.count() {
        places.push(cells.cell(key, number));
    }
}

/// The walk of an operation that is served. It leads a plan as a structure of these cells plans.
pub fn key_walk<C: KeyCells>(cells: C, layout: Layout, op: Op) -> FixedWalk<C>
    requires served { serves_key (C.keyed cells) op ≡ true }
    ensures op { result.op ≡ op }
    ensures course { result.course ≡ cells }
    ensures leads { Leads (fixed_way (λ (c : C). key_course (C.keyed c))) (keyed (C.keyed cells)) layout
        result }
{
    FixedWalk::new(cells, op, layout.version_max)
}

/// The word of the key's cell with this number, as bits, and 0 where it has none.
fn word_in<C: KeyCells + Structure>(cells: &C, words: &Words<C>, key: u32, number: u32) -> u64
    requires structure { cells.now ≡ words.now.structure }
    requires means { Means (C.keyed cells.now) (C.meaning cells.now) }
    requires key { key < (C.keyed cells.now).keys }
    ensures { result ≡ word_at (C.keyed cells.now) (C.meaning cells.now) words.now key number }
{
    if number < cells.count() {
        words.cell(cells.cell(key, number)).bits()
    } else {
        0
    }
}

/// What a key has in these words.
fn held_in<C: KeyCells + Structure>(cells: &C, words: &Words<C>, key: u32) -> Option<u32>
    requires structure { cells.now ≡ words.now.structure }
    requires means { Means (C.keyed cells.now) (C.meaning cells.now) }
    requires key { key < (C.keyed cells.now).keys }
    ensures { result ≡ held_by (C.keyed cells.now) (C.meaning cells.now) words.now key }
{
    cells.held(&[
        word_in(cells, words, key, 0),
        word_in(cells, words, key, 1),
        word_in(cells, words, key, 2),
    ])
}

/// The pairs of a closed table's words, in order of key. The Err is want of memory.
pub fn key_pairs<C: KeyCells + Structure>(
    alloc: Global,
    cells: &C,
    words: &Words<C>,
) -> Result<Vec<(u32, u32)>, AllocError>
    requires structure { cells.now ≡ words.now.structure }
    requires means { Means (C.keyed cells.now) (C.meaning cells.now) }
    ensures contents { IfOk result (λ items. (pairs : Pairs)
        → StandFor (C.meaning cells.now) words.now pairs → items.items ≡ entries pairs) }
{
    pairs_by_key(
        alloc,
        cells.keys(),
        |key|
            requires { (cells.now ≡ words.now.structure) × Means (C.keyed cells.now) (C.meaning cells.now)
                × (key < (C.keyed cells.now).keys) }
        { held_in(cells, words, key) },
    )
}
