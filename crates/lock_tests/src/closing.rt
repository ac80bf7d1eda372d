//! What the words of a closed table hold.
ghost use Rattle.std.specs.Prelude.{◌≡◌, ◌<◌, ◌&&◌, ◌==◌, not, true, IfOk, IfSome};
ghost use Rattle.std.specs.FinMap.{entries};
ghost use Rattle.machine_states.specs.map_history.specs.Replay.{Pairs};
ghost use Rattle.machine_states.specs.body_terms.specs.Word.{value_of};
ghost use Rattle.machine_states.specs.table_words.specs.declared.spot.Spot.TheVariants.{Cell};
ghost use Rattle.settled_tables.specs.closed_words.specs.version_words.specs.TableState.{word_of};
ghost use Rattle.hash_table.specs.try_lock.specs.Contents.{StandFor};
ghost use Rattle.settled_tables.specs.closed_words.specs.Histories.{HoldsNoLock};
ghost use Rattle.lock_tests.specs.Closing.{cells_in, cells_of};

use hash_table::lock_walks::Planner;
use hash_table::lock_walks::version_words::{FlockTable, Words};
use machine_states::body_terms::Place;
use machine_states::structure_laws::Structure;
use settled_tables::closed_words::closed_words_have_a_history;
use std::alloc::{AllocError, Global};

/// How many cells a table has. None where that is no number of 32 bits.
pub fn cell_count<S: Structure>(table: &FlockTable<S>) -> Option<u32>
    ensures { IfSome result (λ cells. cells ≡ cells_in (S.meaning table.now.structure) table.now.layout) }
{
    let fixed = table.structure().fixed_cells();
    fixed.checked_add(table.node_slots().checked_mul(5)?)
}

/// Whether this cell is a lock that names a descriptor.
fn is_held<S: Structure>(words: &Words<S>, place: Place) -> bool
    requires { place < cells_of (S.meaning words.now.structure) words.now }
    ensures { result ≡ ((S.meaning words.now.structure).is_lock place && not
        (value_of (word_of (S.meaning words.now.structure) words.now (Cell place)) == 0)) }
{
    words.structure().is_lock(place) && words.cell(place).value() != 0
}

/// Whether no lock of a closed table, which has so many cells, names a descriptor.
fn is_unlocked<S: Structure>(words: &Words<S>, cells: u32) -> bool
    requires { cells ≡ cells_of (S.meaning words.now.structure) words.now }
    ensures { result ≡ true → HoldsNoLock (S.meaning words.now.structure) words.now }
{
    for place in 0..cells {
        if is_held(words, place) {
            return false;
        }
    }
    true
}

/// The pairs of a closed table, which has so many cells, where none of its locks is held, in order of key.
pub fn pairs_of<S: Planner>(
    alloc: Global,
    words: &Words<S>,
    cells: u32,
) -> Result<Vec<(u32, u32)>, AllocError>
    requires { cells ≡ cells_of (S.meaning words.now.structure) words.now }
    ensures { IfOk result (λ items. (pairs : Pairs) → StandFor (S.meaning words.now.structure) words.now pairs
        → items.items ≡ entries pairs) }
{
    closed_words_have_a_history(words);
    if !is_unlocked(words, cells) {
        return Err(AllocError);
    }
    words.structure().contents(alloc, words)
}
