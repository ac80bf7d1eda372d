//! What a runner's code keeps of its loads of the board.
ghost use Rattle.std.specs.Prelude.{◌≡◌, ◌<◌, ◌≤◌, [], length, slice_set};
ghost use Rattle.machine_states.specs.table_words.specs.Places.{board_words};
ghost use Rattle.runner_block.specs.Marks.{mark_loaded, slot_tried, marks_of, lost_in};

use machine_states::table_words::BOARD_WORDS;
use std::marker::Model;

/// What is kept of a runner's latest load of a word of the board, since it left last.
#[derive(Clone, Copy, PartialEq, Eq)]
pub enum Mark {
    /// It found no link, or there is no such load.
    Empty,
    /// It found a link, and no exchange behind it lost.
    Linked,
    /// It found a link, and the exchange behind it lost.
    Lost,
}

/// A mark for each word of the board.
#[derive(Drop)]
pub struct BoardMarks {
    marks: [Mark; BOARD_WORDS],
    /// Whether a mark was written since the runner left last: most runners leave without a look at the board.
    written: bool,
}

impl Model for BoardMarks {
    ghost use Rattle.std.specs.Prelude.{◌≡◌, false, List, []};
    ghost use Rattle.runner_block.specs.declared.marks.Mark.{Mark};
    ghost use Rattle.runner_block.specs.Marks.{marks_of};

    ghost Value = { List Mark };

    ghost view = { λ a. a.marks };

    ghost invariant = { λ a. a.written ≡ false → a.marks ≡ marks_of [] };
}

impl BoardMarks {
    pub fn new() -> BoardMarks
        ensures { result ≡ marks_of [] }
    {
        BoardMarks {
            marks: [Mark::Empty; BOARD_WORDS],
            written: false,
        }
    }

    /// This number was loaded.
    pub fn load(&mut self, word: u32, found: u64)
        requires { word < board_words }
        ensures { self.new ≡ slice_set self.old word (mark_loaded found) }
    {
        self.marks[word as usize] = if found == 0 {
            Mark::Empty
        } else {
            Mark::Linked
        };
        self.written = true;
    }

    /// An exchange won or lost.
    pub fn exchange(&mut self, word: u32, won: bool)
        requires { word < board_words }
        ensures { self.new ≡ slot_tried self.old word won }
    {
        self.marks[word as usize] = match self.marks[word as usize] {
            Mark::Empty => Mark::Empty,
            _ if won => Mark::Linked,
            _ => Mark::Lost,
        };
        self.written = true;
    }

    /// The runner left.
    pub fn forget(&mut self)
        ensures { self.new ≡ marks_of [] }
    {
        if self.written {
            self.marks = [Mark::Empty; BOARD_WORDS];
            self.written = false;
        }
    }

    /// How many links were lost.
    pub fn lost(&self) -> u32
        ensures { result ≡ lost_in self.now }
    {
        lost_in(&self.marks)
    }
}

/// How many of these marks say that a link was lost.
fn lost_in(marks: &[Mark]) -> u32
    requires { length marks.now ≤ board_words }
    ensures count { result ≡ lost_in marks.now }
    ensures few { result ≤ length marks.now }
{
    match marks {
        [] => 0,
        [Mark::Lost, more @ ..] => 1 + lost_in(more),
        [_, more @ ..] => lost_in(more),
    }
}
