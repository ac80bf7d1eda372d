//! How many words of each kind a table has.
ghost use Rattle.std.specs.Prelude.{◌≡◌, ◌<◌, ◌≤◌};
ghost use Rattle.table_words.specs.Limits.{IsWithinLimits};
ghost use Rattle.table_words.specs.Places.{sizes_of, size};

use crate::layout::Layout;

/// How many words fill a line of 128 bytes. The epoch, the clock, each announcement and each guard word begin a line of
/// their own, since each runner writes some of them all the time: two in one cache line would be taken from one
/// processor by the other.
pub const LINE_WORDS: usize = 16;

/// A section's log is kept in parts of so many words: the first part stands in its descriptor, and each further one in
/// a block that is linked to the part before it.
pub const PART_WORDS: usize = 7;

/// How many free blocks an attempt may want: those for the log of its own section, and those for the log of one that it
/// helps.
pub const ATTEMPT_BLOCKS: usize = 16;

/// The words of one descriptor: twelve thunk words, a done word, a part of the log and its link.
pub const DESCRIPTOR_WORDS: usize = 14 + PART_WORDS;

/// The words of one block: a part of a log and its link.
pub const BLOCK_WORDS: usize = PART_WORDS + 1;

/// The words of the board.
pub const BOARD_WORDS: usize = 64;

/// How many workers, requests, cells, descriptors and blocks a table has words for.
#[derive(Clone, Copy, PartialEq, Eq, Debug)]
pub struct Sizes {
    pub runners: u32,
    pub requests: u32,
    pub cells: u32,
    pub descriptors: u32,
    pub blocks: u32,
}

impl Sizes {
    /// The sizes of the table for this layout, this number of requests, and a structure with these many fixed cells and
    /// fixed node slots.
    pub fn of(layout: Layout, requests: u32, fixed_cells: u32, fixed_slots: u32) -> Self
        requires limits { IsWithinLimits layout }
        requires few_cells { fixed_cells ≤ 12288 }
        requires few_slots { fixed_slots ≤ 3 }
        ensures { result ≡ sizes_of layout requests fixed_cells fixed_slots }
    {
        let workers = layout.runners;
        let slots = fixed_slots + layout.nodes * workers + (2 * workers + 2);
        Sizes {
            runners: workers,
            requests,
            cells: fixed_cells + 5 * slots,
            descriptors: layout.sections * workers + workers,
            blocks: layout.blocks(),
        }
    }

    /// The number of words.
    pub fn words(self) -> usize
        ensures { result ≡ size self }
    {
        let entries = LINE_WORDS * (5 + 2 * self.runners as usize) + 2 * self.requests as usize;
        let descriptors = DESCRIPTOR_WORDS * self.descriptors as usize;
        entries
            + self.cells as usize
            + descriptors
            + BLOCK_WORDS * self.blocks as usize
            + BOARD_WORDS
    }
}
