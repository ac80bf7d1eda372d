//! A table's sizes, with the addresses at which its groups of words begin.
ghost use Rattle.std.specs.Prelude.{◌≡◌};
ghost use Rattle.machine_states.specs.table_words.specs.Places.{address, Fits};

use machine_states::table_words::{BLOCK_WORDS, DESCRIPTOR_WORDS, PART_WORDS, Sizes, Spot};
use std::marker::Model;

/// How many words fill a line of 128 bytes, as `Spot::address` has it.
const LINE_WORDS: usize = 16;

/// The sizes of a table, with where its entries, its cells and its descriptors begin: a step only adds to one of these
/// numbers.
#[derive(Drop)]
pub struct Bases {
    sizes: Sizes,
    entries: usize,
    cells: usize,
    descriptors: usize,
}

impl Model for Bases {
    ghost use Rattle.machine_states.specs.table_words.specs.declared.sizes.Sizes.{Sizes};
    ghost use Rattle.version_words.specs.Bases.{AreBases};

    ghost Value = { Sizes };

    ghost view = { λ a. a.sizes };

    ghost invariant = { λ a. AreBases a.sizes a.entries a.cells a.descriptors };
}

impl Bases {
    /// The sizes with their bases, worked out once.
    pub fn of(sizes: Sizes) -> Self
        ensures { result ≡ sizes }
    {
        let entries = LINE_WORDS * (5 + 2 * sizes.runners as usize);
        let cells = entries + 2 * sizes.requests as usize;
        Bases {
            sizes,
            entries,
            cells,
            descriptors: cells + sizes.cells as usize,
        }
    }

    /// Where this word stands.
    #[inline(always)]
    pub fn address(&self, spot: Spot) -> usize
        requires { Fits self.now spot }
        ensures { result ≡ address self.now spot }
    {
        match spot {
            Spot::Seat => 0,
            Spot::Epoch => LINE_WORDS,
            Spot::Clock => 2 * LINE_WORDS,
            Spot::Announcement(runner) => LINE_WORDS * (3 + runner as usize),
            Spot::Guard(runner) => {
                LINE_WORDS * (4 + self.sizes.runners as usize + runner as usize)
            }
            Spot::Stamp(request) => self.entries + 2 * request as usize,
            Spot::Reply(request) => self.entries + 2 * request as usize + 1,
            Spot::Cell(place) => self.cells + place as usize,
            Spot::ThunkWord(descriptor, word) => self.descriptor_at(descriptor) + word as usize,
            Spot::DoneWord(descriptor) => self.descriptor_at(descriptor) + 12,
            Spot::LogWord(descriptor, word) => self.descriptor_at(descriptor) + 13 + word as usize,
            Spot::LinkWord(descriptor) => self.descriptor_at(descriptor) + 13 + PART_WORDS,
            Spot::BlockWord(block, word) => self.block_at(block) + word as usize,
            Spot::BlockLink(block) => self.block_at(block) + PART_WORDS,
            Spot::Board(word) => self.block_at(self.sizes.blocks) + word as usize,
        }
    }
}

impl Bases {
    ghost use Rattle.std.specs.Prelude.{◌≡◌, ◌+◌};
    ghost use Rattle.machine_states.specs.table_words.specs.Places.{descriptor_at, block_at};

    /// Where the words of this descriptor begin.
    #[inline(always)]
    pub fn descriptor_at(&self, descriptor: u32) -> usize
        ensures { result ≡ descriptor_at self.now descriptor }
    {
        self.descriptors + DESCRIPTOR_WORDS * descriptor as usize
    }

    /// Where the words of this block begin.
    fn block_at(&self, block: u32) -> usize
        ensures { result ≡ block_at self.now block }
    {
        self.descriptor_at(self.sizes.descriptors) + BLOCK_WORDS * block as usize
    }

    /// Where this word stands of a descriptor whose words begin here.
    #[inline(always)]
    pub fn word_at(&self, descriptor: u32, start: usize, word: u32) -> usize
        requires { start ≡ descriptor_at self.now descriptor }
        ensures { result ≡ start + word }
    {
        let _ = descriptor;
        let _ = &self.sizes;
        start + word as usize
    }
}
