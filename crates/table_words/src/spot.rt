//! A word of the table, by what it is.
ghost use Rattle.std.specs.Prelude.{◌≡◌};
ghost use Rattle.table_words.specs.Places.{address, Fits, fits};

use crate::sizes::{BLOCK_WORDS, BOARD_WORDS, DESCRIPTOR_WORDS, LINE_WORDS, PART_WORDS, Sizes};

/// A word of the table, by what it is.
///
/// Announcements and guard words are numbered by runner, the keeper last. A place counts cells alone, the fixed cells
/// first and then five for each node slot. A descriptor has twelve thunk words, a done word, the first part of its
/// section's log and a link; a block has a further part of a log and a link.
#[derive(Clone, Copy, PartialEq, Eq, Debug)]
pub enum Spot {
    /// The word that splitting and joining a seat load.
    Seat,
    Epoch,
    Clock,
    Announcement(u32),
    /// The word with which a runner keeps a descriptor from being used again (a hazard pointer; Michael, 2004).
    Guard(u32),
    Stamp(u32),
    Reply(u32),
    Cell(u32),
    ThunkWord(u32, u32),
    DoneWord(u32),
    LogWord(u32, u32),
    /// The link of a descriptor to the block with the next part of its log: 0 for none, and `b + 1` for block `b`.
    LinkWord(u32),
    BlockWord(u32, u32),
    /// The link of a block to the next one.
    BlockLink(u32),
    /// A word of the board, on which runners leave node slots for one another.
    Board(u32),
}

impl Spot {
    /// Whether a table of these sizes has this word.
    pub fn fits(self, sizes: Sizes) -> bool
        ensures { result ≡ fits sizes self }
    {
        match self {
            Spot::Seat | Spot::Epoch | Spot::Clock => true,
            Spot::Announcement(runner) | Spot::Guard(runner) => runner <= sizes.runners,
            Spot::Stamp(request) | Spot::Reply(request) => request < sizes.requests,
            Spot::Cell(place) => place < sizes.cells,
            Spot::ThunkWord(descriptor, word) => descriptor < sizes.descriptors && word < 12,
            Spot::DoneWord(descriptor) => descriptor < sizes.descriptors,
            Spot::LogWord(descriptor, word) => {
                descriptor < sizes.descriptors && (word as usize) < PART_WORDS
            }
            Spot::LinkWord(descriptor) => descriptor < sizes.descriptors,
            Spot::BlockWord(block, word) => block < sizes.blocks && (word as usize) < PART_WORDS,
            Spot::BlockLink(block) => block < sizes.blocks,
            Spot::Board(word) => (word as usize) < BOARD_WORDS,
        }
    }

    /// Where this word stands in a table of these sizes.
    pub fn address(self, sizes: Sizes) -> usize
        requires { Fits sizes self }
        ensures { result ≡ address sizes self }
    {
        match self {
            Spot::Seat => 0,
            Spot::Epoch => LINE_WORDS,
            Spot::Clock => 2 * LINE_WORDS,
            Spot::Announcement(runner) => LINE_WORDS * (3 + runner as usize),
            Spot::Guard(runner) => LINE_WORDS * (4 + sizes.runners as usize + runner as usize),
            Spot::Stamp(request) => sizes.entries_at() + 2 * request as usize,
            Spot::Reply(request) => sizes.entries_at() + 2 * request as usize + 1,
            Spot::Cell(place) => sizes.cells_at() + place as usize,
            Spot::ThunkWord(descriptor, word) => sizes.descriptor_at(descriptor) + word as usize,
            Spot::DoneWord(descriptor) => sizes.descriptor_at(descriptor) + 12,
            Spot::LogWord(descriptor, word) => sizes.descriptor_at(descriptor) + 13 + word as usize,
            Spot::LinkWord(descriptor) => sizes.descriptor_at(descriptor) + 13 + PART_WORDS,
            Spot::BlockWord(block, word) => sizes.block_at(block) + word as usize,
            Spot::BlockLink(block) => sizes.block_at(block) + PART_WORDS,
            Spot::Board(word) => sizes.board_at() + word as usize,
        }
    }
}

impl Sizes {
    ghost use Rattle.std.specs.Prelude.{◌≡◌, ◌<◌, ◌≤◌};
    ghost use Rattle.table_words.specs.Places.{entries_at, cells_at, descriptor_at, block_at, board_at};

    /// Where the stamp and reply words begin.
    fn entries_at(self) -> usize
        ensures { result ≡ entries_at self }
    {
        LINE_WORDS * (5 + 2 * self.runners as usize)
    }

    /// Where the cells begin.
    fn cells_at(self) -> usize
        ensures { result ≡ cells_at self }
    {
        self.entries_at() + 2 * self.requests as usize
    }

    /// Where the words of this descriptor begin.
    fn descriptor_at(self, descriptor: u32) -> usize
        requires { descriptor ≤ self.descriptors }
        ensures { result ≡ descriptor_at self descriptor }
    {
        self.cells_at() + self.cells as usize + DESCRIPTOR_WORDS * descriptor as usize
    }

    /// Where the words of this block begin.
    fn block_at(self, block: u32) -> usize
        requires { block ≤ self.blocks }
        ensures { result ≡ block_at self block }
    {
        self.descriptor_at(self.descriptors) + BLOCK_WORDS * block as usize
    }

    /// Where the board begins.
    fn board_at(self) -> usize
        ensures { result ≡ board_at self }
    {
        self.block_at(self.blocks)
    }
}
