//! The words of a log, in its descriptor and along the links.
ghost use Rattle.std.specs.Prelude.{◌≡◌, ◌≤◌, length};
ghost use Rattle.machine_states.specs.table_words.specs.Places.{size};
ghost use Rattle.machine_states.specs.table_words.specs.Seen.{blank, seen};
ghost use Rattle.machine_states.specs.body_terms.specs.block_words.specs.Blocks.{log_in};
ghost use Rattle.interleave_core.specs.Logs.{link_behind, word_behind};

use machine_states::runner_steps::block_words::MOST_BLOCKS;
use machine_states::table_words::{PART_WORDS, Sizes, Spot, word_at};

/// The word at this spot, and 0 where the table has none.
#[tactic(auto, using(crate::proofs::Logs::there, crate::proofs::Logs::unseen))]
fn word_or_none(words: &[u64], sizes: Sizes, spot: Spot) -> u64
    requires room { size sizes ≤ length words.now }
    requires no_cell { blank spot ≡ 0 }
    ensures { result ≡ seen sizes words.now spot }
{
    if spot.fits(sizes) {
        word_at(words, sizes, spot)
    } else {
        0
    }
}

/// The link of the block that a link names, and 0 behind the last part.
#[tactic(auto, using(crate::proofs::Logs::no_link))]
fn link_behind(words: &[u64], sizes: Sizes, link: u64) -> u64
    requires { size sizes ≤ length words.now }
    ensures { result ≡ link_behind (seen sizes words.now) link }
{
    if link == 0 || u64::from(sizes.blocks) < link {
        return 0;
    }
    word_or_none(words, sizes, Spot::BlockLink((link - 1) as u32))
}

/// This word of the block that a link names, and 0 behind the last part.
#[tactic(auto, using(crate::proofs::Logs::no_word))]
fn word_behind(words: &[u64], sizes: Sizes, link: u64, word: u32) -> u64
    requires { size sizes ≤ length words.now }
    ensures { result ≡ word_behind (seen sizes words.now) link word }
{
    if link == 0 || u64::from(sizes.blocks) < link {
        return 0;
    }
    word_or_none(words, sizes, Spot::BlockWord((link - 1) as u32, word))
}

/// This word of a descriptor's log, and 0 where no part that has it is linked.
pub(crate) fn log_word(words: &[u64], sizes: Sizes, descriptor: u32, index: u32) -> u64
    requires { size sizes ≤ length words.now }
    ensures { result ≡ log_in (seen sizes words.now) descriptor index }
{
    let part = index as usize / PART_WORDS;
    let word = (index as usize % PART_WORDS) as u32;
    if part == 0 {
        return word_or_none(words, sizes, Spot::LogWord(descriptor, word));
    }
    if part > MOST_BLOCKS {
        return 0;
    }
    let mut link = word_or_none(words, sizes, Spot::LinkWord(descriptor));
    for _before in 0..part - 1 {
        link = link_behind(words, sizes, link);
    }
    word_behind(words, sizes, link, word)
}
