//! Where the words and links of a log stand.
ghost use Rattle.std.specs.Prelude.{◌≡◌, ◌<◌, ◌≤◌, length};
ghost use Rattle.block_words.specs.Blocks.{blocks_for, link_spot, log_spot, room};

use table_words::{PART_WORDS, Spot};

/// A log goes on in at most so many blocks.
pub const MOST_BLOCKS: usize = 8;

/// How many blocks a log of so many words needs.
pub fn blocks_for(words: u32) -> u32
    requires { words ≤ 131072 }
    ensures { result ≡ blocks_for words }
{
    let parts = (words as usize + (PART_WORDS - 1)) / PART_WORDS;
    parts.saturating_sub(1) as u32
}

/// Where log word `index` stands, for a descriptor with these blocks.
pub fn log_spot(descriptor: u32, blocks: &[u32], index: u32) -> Spot
    requires { index < room blocks.now }
    ensures { result ≡ log_spot descriptor blocks.now index }
{
    let part = index as usize / PART_WORDS;
    let word = (index as usize % PART_WORDS) as u32;
    if part == 0 {
        Spot::LogWord(descriptor, word)
    } else {
        Spot::BlockWord(blocks[part - 1], word)
    }
}

/// The link behind the last part, for a descriptor with these blocks.
pub fn link_spot(descriptor: u32, blocks: &[u32]) -> Spot
    ensures { result ≡ link_spot descriptor blocks.now (length blocks.now) }
{
    match blocks.last() {
        None => Spot::LinkWord(descriptor),
        Some(block) => Spot::BlockLink(*block),
    }
}
