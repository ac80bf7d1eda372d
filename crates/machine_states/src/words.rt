//! The first words.
ghost use Rattle.std.specs.Prelude.{◌≡◌, ◌+◌, ◌*◌, ◌≤◌, IfOk, replicate, slice_set};
ghost use Rattle.std.specs.Vec.{vec_capacity};
ghost use Rattle.runner_steps.specs.runner_parts.specs.structure_laws.specs.Cells.{first_word};
ghost use Rattle.runner_steps.specs.table_words.specs.Places.{address, cells_at, size};
ghost use Rattle.runner_steps.specs.table_words.specs.declared.spot.Spot.TheVariants as spots;
ghost use Rattle.machine_states.specs.First.{IsFilled};

use runner_steps::body_terms::{Place, Word};
use runner_steps::runner_parts::structure_laws::Structure;
use runner_steps::table_words::{Sizes, Spot};
use std::alloc::{AllocError, Global};

/// The first word of a place.
fn first_word<S: Structure>(structure: &S, place: Place) -> u64
    ensures { result ≡ first_word (S.meaning structure.now) place }
{
    let fixed = structure.fixed_cells() + 5 * structure.fixed_slots();
    let value = if place < fixed {
        structure.first_value(place)
    } else {
        0
    };
    Word::pack(value, 1).bits()
}

/// How many words fill a line of 128 bytes, as `Spot::address` has it.
const LINE_WORDS: usize = 16;

/// Where the cells begin.
fn cells_at(sizes: Sizes) -> usize
    ensures { result ≡ cells_at sizes }
{
    LINE_WORDS * (5 + 2 * sizes.runners as usize) + 2 * sizes.requests as usize
}

/// The words before the cells: all are 0, but for the epoch. There is room for all words of the table.
fn words_before_cells(alloc: Global, sizes: Sizes) -> Result<Vec<u64>, AllocError>
    ensures words { IfOk result (λ v. v.items
        ≡ slice_set (replicate (cells_at sizes) 0) (address sizes spots.Epoch) 1) }
    ensures room { IfOk result (λ v. size sizes ≤ vec_capacity v) }
{
    let mut words = Vec::with_capacity(alloc, sizes.words())?;
    for word in 0..cells_at(sizes) {
        words.push_reserved(0);
    }
    words[Spot::Epoch.address(sizes)] = 1;
    Ok(words)
}

/// The first words of the table, one behind the other.
pub fn first_words<S: Structure>(
    alloc: Global,
    structure: &S,
    sizes: Sizes,
) -> Result<Vec<u64>, AllocError>
    ensures { IfOk result (λ v. IsFilled (S.meaning structure.now) sizes sizes.cells v.items) }
{
    let mut words = words_before_cells(alloc, sizes)?;
    for place in 0..sizes.cells {
        words.push_reserved(first_word(structure, place));
    }
    for word in words.len()..sizes.words() {
        words.push_reserved(0);
    }
    Ok(words)
}
