//! The memory of a plain run.
ghost use Rattle.std.specs.Prelude.{◌≡◌, ◌+◌, ◌*◌, ◌/◌, ◌^◌, ◌<◌, ◌==◌, ◌∷◌, [], ◌++◌, max, cond, drop, length, slice_index, slice_set};
ghost use Rattle.body_terms.specs.Word.{version_of, next_word};
ghost use Rattle.body_terms.specs.Memory.{cell_of};
ghost use Rattle.body_terms.specs.Run.{written_once};

use body_terms::{Place, Word};
use std::marker::Model;

/// What a body runs over when it runs alone and in one go.
///
/// Contracts see the vectors as lists, and for how many retired slots there is room.
#[derive(Debug, Drop)]
pub struct Memory {
    /// The words of the cells, by place.
    pub cells: Vec<Word>,
    /// The free node slots, in the order in which they are given.
    pub free: Vec<u32>,
    /// The retired node slots.
    pub retired: Vec<u32>,
    /// The clock.
    pub clock: u64,
    /// The stamp word of each request.
    pub stamps: Vec<u64>,
    /// The reply word of each request.
    pub replies: Vec<u64>,
    /// The greatest version, at which `Fresh` leaves.
    pub version_max: u32,
    /// The number of fixed cells, behind which the slots' cells stand.
    pub fixed_cells: u32,
}

impl Model for Memory {
    ghost use Rattle.std.specs.Vec.{vec_capacity};
    ghost use Rattle.body_terms.specs.Memory.{PlainMemory};

    ghost Value = { PlainMemory };

    ghost view = { λ m. record {
      cells = m.cells.items;
      free = m.free.items;
      retired = m.retired.items;
      room = vec_capacity m.retired;
      clock = m.clock;
      stamps = m.stamps.items;
      replies = m.replies.items;
      version_max = m.version_max;
      fixed_cells = m.fixed_cells;
    } };
}

impl Memory {
    /// The word of a cell.
    pub(crate) fn word(&self, place: Place) -> Word
        requires { place < length self.now.cells }
        ensures { result ≡ slice_index self.now.cells place }
    {
        self.cells[place as usize]
    }

    /// Exchanges a cell from this word to the next one with this value, and leaves it where it has another word.
    pub(crate) fn exchange(&mut self, place: Place, old: Word, value: u32)
        requires within { place < length self.old.cells }
        requires room { slice_index self.old.cells place ≡ old → version_of old + 1 < 2 ^ 32 }
        ensures { self.new ≡ record self.old {
          cells = slice_set self.old.cells place
              (cond (slice_index self.old.cells place == old)
              (next_word old value) (slice_index self.old.cells place));
        } }
    {
        let index = place as usize;
        if self.cells[index] == old {
            self.cells[index] = old.next(value);
        }
    }

    /// Gives a cell of a node slot its next word, with this value.
    pub(crate) fn fill(&mut self, slot: u32, cell: u32, value: u32)
        requires within { cell_of self.old.fixed_cells slot cell < length self.old.cells }
        requires room { version_of (slice_index self.old.cells (cell_of self.old.fixed_cells slot cell)) + 1 < 2 ^ 32 }
        ensures { let place = cell_of self.old.fixed_cells slot cell in
            self.new ≡ record self.old {
              cells = slice_set self.old.cells place (next_word (slice_index self.old.cells place) value);
            } }
    {
        let index = self.fixed_cells as usize + 5 * slot as usize + cell as usize;
        self.cells[index] = self.cells[index].next(value);
    }

    /// Gives the next free node slot.
    pub(crate) fn give_slot(&mut self) -> u32
        requires { 0 < length self.old.free }
        ensures slot { result ≡ slice_index self.old.free 0 }
        ensures memory { self.new ≡ record self.old { free = drop 1 self.old.free } }
    {
        self.free.remove(0)
    }

    /// Retires a node slot. The caller has reserved the room.
    pub(crate) fn retire(&mut self, slot: u32)
        requires { length self.old.retired < self.old.room }
        ensures { self.new ≡ record self.old { retired = self.old.retired ++ slot ∷ [] } }
    {
        self.retired.push_reserved(slot);
    }

    /// Gives a request the stamp of the present clock, unless it has one, and raises the clock to half of its stamp.
    pub(crate) fn stamp(&mut self, request: u32)
        requires within { request < length self.old.stamps }
        requires early { self.old.clock < 2 ^ 62 }
        ensures { let stamp = written_once (slice_index self.old.stamps request) (2 * (self.old.clock + 1)) in
            self.new ≡ record self.old {
              clock = max self.old.clock (stamp / 2);
              stamps = slice_set self.old.stamps request stamp;
            } }
    {
        let index = request as usize;
        if self.stamps[index] == 0 {
            self.stamps[index] = 2 * (self.clock + 1);
        }
        self.clock = self.clock.max(self.stamps[index] / 2);
    }

    /// Gives a request its reply word, unless it has one.
    pub(crate) fn answer(&mut self, request: u32, reply: u64)
        requires { request < length self.old.replies }
        ensures { self.new ≡ record self.old {
          replies = slice_set self.old.replies request
              (written_once (slice_index self.old.replies request) reply);
        } }
    {
        let index = request as usize;
        if self.replies[index] == 0 {
            self.replies[index] = reply;
        }
    }
}
