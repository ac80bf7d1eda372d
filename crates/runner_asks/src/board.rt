//! Which word an event on the board meets, and how.
ghost use Rattle.std.specs.Prelude.{◌≡◌};
ghost use Rattle.runner_steps.specs.Board.{may_use, last_read, board_load_ask, board_take_ask, board_give_ask};

use runner_steps::runner_parts::epoch_core::Stage;
use runner_steps::runner_parts::{BoardRead, Part, has};
use runner_steps::table_words::{Access, Layout, Spot};

/// Whether the runner may use the board: an idle worker may.
fn may_use(layout: Layout, runner: u32, stage: Stage) -> bool
    ensures { result ≡ may_use layout runner stage }
{
    match stage {
        Stage::Idle => runner < layout.runners,
        _ => false,
    }
}

/// What the runner read in this word of the board when it loaded it last, if it did.
fn last_read(board: &[BoardRead], word: u32) -> Option<u64>
    ensures { result ≡ last_read board.now word }
{
    for load in board {
        if load.word == word {
            return Some(load.read);
        }
    }
    None
}

pub fn board_load_ask(part: &Part, layout: Layout, runner: u32, word: u32) -> Option<(Spot, Access)>
    ensures { result ≡ board_load_ask layout runner word part.now }
{
    if may_use(layout, runner, part.stage) {
        Some((Spot::Board(word), Access::Loads))
    } else {
        None
    }
}

pub fn board_take_ask(
    part: &Part,
    layout: Layout,
    runner: u32,
    word: u32,
    link: u64,
) -> Option<(Spot, Access)>
    ensures { result ≡ board_take_ask layout runner word link part.now }
{
    match last_read(&part.board, word) {
        Some(read) if may_use(layout, runner, part.stage) && link != 0 && read == link => {
            Some((Spot::Board(word), Access::Exchanges(link, 0)))
        }
        _ => None,
    }
}

pub fn board_give_ask(
    part: &Part,
    layout: Layout,
    runner: u32,
    word: u32,
    slot: u32,
) -> Option<(Spot, Access)>
    ensures { result ≡ board_give_ask layout runner word slot part.now }
{
    if may_use(layout, runner, part.stage) && has(&part.nodes.free, slot) {
        Some((Spot::Board(word), Access::Exchanges(0, slot as u64 + 1)))
    } else {
        None
    }
}
