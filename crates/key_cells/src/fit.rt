//! Whether a thunk is the one for its readings.
ghost use Rattle.std.specs.Prelude.{◌≡◌, ◌+◌, ◌<◌, ◌==◌, ◌||◌, nat_lt};
ghost use Rattle.runner_parts.specs.Tests.{has_pair};
ghost use Rattle.runner_parts.specs.structure_laws.specs.map_history.specs.AtKey.{left_at};
ghost use Rattle.key_cells.specs.Keyed.{cell_place, each_of, wanted, new_of, was_read, is_for, key_fits};

use crate::cells::KeyCells;
use crate::readings::has_pair;
use runner_parts::structure_laws::body_terms::{Place, Thunk, Word};
use runner_parts::structure_laws::map_history::Op;
use shared_laws::{changes_at, left_at, reply_at};

/// Whether the thunk is for this operation, and what it wants was read.
pub fn key_fits<C: KeyCells>(cells: &C, op: Op, readings: &[(Place, Word)], thunk: &Thunk) -> bool
    ensures { result ≡ key_fits (C.keyed cells.now) op readings.now thunk.now }
{
    if op.other_key().is_some() || op.key() >= cells.keys() {
        return false;
    }
    was_read(cells, op.key(), readings, thunk)
        && is_for(cells, op, cells.held(&thunk.operands), thunk)
}

/// Whether the thunk's lock and key are this key's, and the words that it wants were read in the places of
/// this key.
fn was_read<C: KeyCells>(cells: &C, key: u32, readings: &[(Place, Word)], thunk: &Thunk) -> bool
    requires { key < (C.keyed cells.now).keys }
    ensures { result ≡ was_read (C.keyed cells.now) key readings.now thunk.now }
{
    let lock = cells.lock_of(key);
    if thunk.lock != lock || thunk.operands[7] != u64::from(key) {
        return false;
    }
    were_read(cells, key, readings, thunk) && has_pair(readings, lock, thunk.word)
}

/// Whether the words that it wants in the key's cells were read there.
fn were_read<C: KeyCells>(cells: &C, key: u32, readings: &[(Place, Word)], thunk: &Thunk) -> bool
    requires { key < (C.keyed cells.now).keys }
    ensures { result ≡ each_of (C.keyed cells.now).count
        (λ i. has_pair readings.now (cell_place (C.keyed cells.now) key i) (wanted thunk.now i)) }
{
    is_read(cells, key, readings, thunk, 0)
        && (is_read(cells, key, readings, thunk, 1) && is_read(cells, key, readings, thunk, 2))
}

/// Whether the word that it wants in the cell with this number was read there, where the key has that cell.
fn is_read<C: KeyCells>(
    cells: &C,
    key: u32,
    readings: &[(Place, Word)],
    thunk: &Thunk,
    number: u32,
) -> bool
    requires key { key < (C.keyed cells.now).keys }
    requires number { number < 3 }
    ensures { result ≡ (nat_lt (C.keyed cells.now).count (number + 1)
        || has_pair readings.now (cell_place (C.keyed cells.now) key number) (wanted thunk.now number)) }
{
    cells.count() < number + 1
        || has_pair(
            readings,
            cells.cell(key, number),
            Word::from_bits(thunk.operands[number as usize]),
        )
}

/// Whether the thunk is the one for this operation on a key that had this.
fn is_for<C: KeyCells>(cells: &C, op: Op, had: Option<u32>, thunk: &Thunk) -> bool
    ensures { result ≡ is_for (C.keyed cells.now) op had thunk.now }
{
    let form = if changes_at(had, op) { 2 } else { 1 };
    if thunk.form != form || thunk.operands[6] != reply_at(had, op).word() {
        return false;
    }
    let left = left_at(had, op);
    is_left(cells, left, thunk, 0)
        && (is_left(cells, left, thunk, 1) && is_left(cells, left, thunk, 2))
}

/// Whether the new value of the cell with this number is that of a key that has this, where there is such a
/// cell.
fn is_left<C: KeyCells>(cells: &C, has: Option<u32>, thunk: &Thunk, number: u32) -> bool
    requires { number < 3 }
    ensures { result ≡ (nat_lt (C.keyed cells.now).count (number + 1)
        || (new_of thunk.now number == (C.keyed cells.now).value has number)) }
{
    cells.count() < number + 1 || thunk.operands[3 + number as usize] == cells.value(has, number)
}
