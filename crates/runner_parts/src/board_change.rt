//! What a runner keeps of the board: its loads of it, and what became of its exchanges.
ghost use Rattle.std.specs.Prelude.{◌≡◌, OnOk};
ghost use Rattle.runner_parts.specs.Lists.{board_read, board_tried, tried_as};

use crate::entries::{BoardRead, Tried};
use std::alloc::{AllocError, Global};

/// A word of the board was loaded; the latest load stands first.
pub fn board_read(board: &mut Vec<BoardRead>, word: u32, found: u64) -> Result<(), AllocError>
    ensures { OnOk result (board.new.items ≡ board_read board.old.items word found) }
{
    board.insert(
        0,
        BoardRead {
            word,
            read: found,
            tried: Tried::Not,
        },
    )?;
    Ok(())
}

/// What became of an exchange that won, or lost.
fn tried_as(won: bool) -> Tried
    ensures { result ≡ tried_as won }
{
    if won { Tried::Won } else { Tried::Lost }
}

/// An exchange on a word of the board is noted with the runner's last load of it, if there is one.
pub fn board_tried(board: &mut [BoardRead], word: u32, won: bool)
    ensures { board.new ≡ board_tried board.old word won }
{
    for i in 0..board.len() {
        if board[i].word == word {
            board[i].tried = tried_as(won);
            return;
        }
    }
}
