//! How many words the table has and where some of them stand, and the words that runners put there.
ghost use Rattle.std.specs.Prelude.{◌≡◌, ◌<◌, ◌≤◌, ◌-◌, ◌^◌, length};
ghost use Rattle.runner_parts.specs.structure_laws.specs.map_history.specs.Requests.{most_requests};
ghost use Rattle.runner_parts.specs.block_words.specs.table_words.specs.Limits.{IsWithinLimits};
ghost use Rattle.runner_parts.specs.block_words.specs.table_words.specs.Places.{slot_count, descriptor_count, block_count};
ghost use Rattle.runner_parts.specs.structure_laws.specs.body_terms.specs.Memory.{cell_of};
ghost use Rattle.runner_parts.specs.structure_laws.specs.body_terms.specs.Run.{written_once};
ghost use Rattle.runner_parts.specs.structure_laws.specs.body_terms.specs.Word.{held_word, version_of};
ghost use Rattle.runner_steps.specs.Asks.{sizes_for};
ghost use Rattle.runner_steps.specs.Outside.{block_spot, blocks_from, descriptor_spot};

use runner_parts::block_words::table_words::{Layout, PART_WORDS, Sizes, Spot};
use runner_parts::structure_laws::Structure;
use runner_parts::structure_laws::body_terms::{Place, Word};
use runner_parts::structure_laws::map_history::Request;

/// How many words of each kind the table has.
pub fn sizes_for<S: Structure>(structure: &S, layout: Layout, requests: &[Request]) -> Sizes
    requires limits { IsWithinLimits layout }
    requires few { length requests.now ≤ most_requests }
    ensures { result ≡ sizes_for (S.meaning structure.now) layout requests.now }
{
    let fixed_cells = structure.fixed_cells();
    let fixed_slots = structure.fixed_slots();
    Sizes::of(layout, requests.len() as u32, fixed_cells, fixed_slots)
}

/// The number of all node slots.
pub fn slot_count<S: Structure>(structure: &S, layout: Layout) -> u32
    requires { IsWithinLimits layout }
    ensures { result ≡ slot_count layout (S.meaning structure.now).fixed_slots }
{
    structure.fixed_slots() + layout.nodes * layout.runners + (2 * layout.runners + 2)
}

/// The number of all descriptors.
pub fn descriptor_count(layout: Layout) -> u32
    requires { IsWithinLimits layout }
    ensures { result ≡ descriptor_count layout }
{
    layout.sections * layout.runners + layout.runners
}

/// The number of all blocks.
pub fn block_count(layout: Layout) -> u32
    requires { IsWithinLimits layout }
    ensures { result ≡ block_count layout }
{
    layout.blocks()
}

/// The place of a cell of a node slot.
pub fn cell_place<S: Structure>(structure: &S, layout: Layout, slot: u32, cell: u32) -> Place
    requires limits { IsWithinLimits layout }
    requires slot { slot < slot_count layout (S.meaning structure.now).fixed_slots }
    requires cell { cell < 5 }
    ensures { result ≡ cell_of (S.meaning structure.now).fixed_cells slot cell }
{
    structure.fixed_cells() + 5 * slot + cell
}

/// Where a descriptor's word stands: the thunk words, the done word, the first part of the log, the link.
#[inline(always)]
pub fn descriptor_spot(descriptor: u32, word: u32) -> Spot
    ensures { result ≡ descriptor_spot descriptor word }
{
    if word < 12 {
        Spot::ThunkWord(descriptor, word)
    } else if word == 12 {
        Spot::DoneWord(descriptor)
    } else if word as usize == 13 + PART_WORDS {
        Spot::LinkWord(descriptor)
    } else {
        Spot::LogWord(descriptor, word - 13)
    }
}

/// Where a block's word stands: a part of a log, the link.
#[inline(always)]
pub fn block_spot(block: u32, word: u32) -> Spot
    ensures { result ≡ block_spot block word }
{
    if word as usize == PART_WORDS {
        Spot::BlockLink(block)
    } else {
        Spot::BlockWord(block, word)
    }
}

/// The first number of a block, behind the node slots and the descriptors.
pub fn blocks_from<S: Structure>(structure: &S, layout: Layout) -> u32
    requires { IsWithinLimits layout }
    ensures { result ≡ blocks_from (S.meaning structure.now) layout }
{
    slot_count(structure, layout) + descriptor_count(layout)
}

/// The word of a lock that was free with this word, once the descriptor's section holds it.
#[inline(always)]
pub fn held_word(descriptor: u32, free: Word) -> Word
    requires descriptor { descriptor < 2 ^ 32 - 1 }
    requires version { version_of free < 2 ^ 32 - 1 }
    ensures { result ≡ held_word descriptor free }
{
    Word::pack(descriptor + 1, free.version() + 1)
}

/// What then stands in a word that was exchanged from 0: what stood there, or else the proposal.
#[inline(always)]
pub fn agreed_on(found: u64, proposal: u64) -> u64
    ensures { result ≡ written_once found proposal }
{
    if found == 0 { proposal } else { found }
}
