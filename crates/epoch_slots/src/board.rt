//! The walks over the board's words: a worker that has few free node slots takes some there, and one that has many
//! gives some.
ghost use Rattle.std.specs.Prelude.{◌<◌, length};
ghost use Rattle.machine_states.specs.table_words.specs.Places.{board_words};
ghost use Rattle.version_words.specs.TableState.{IsOf};
ghost use Rattle.epoch_slots.specs.Board.{MayUseBoard, TakesOne, GivesOne, IsDrawn, GivesAway};

use machine_states::structure_laws::Structure;
use machine_states::table_words::BOARD_WORDS;
use version_words::{FlockTable, Runner};

/// One word of the board: its slot is taken, if it names one. It is a call of its own, since who attempts seldom needs
/// it, and would keep registers free for it each time.
#[inline(never)]
fn draw_one<S: Structure>(table: &FlockTable<S>, runner: Runner<S>, word: u32) -> Runner<S>
    requires own { IsOf table.now runner }
    requires ready { MayUseBoard runner }
    requires few { word < board_words }
    ensures own { IsOf table.now result }
    ensures one { TakesOne (S.meaning table.now.structure) word runner result }
{
    let (runner, link) = table.board_load(runner, word);
    if link == 0 {
        runner
    } else {
        let (runner, _) = table.board_take(runner, word, link);
        runner
    }
}

/// While fewer than `n` own node slots are free: goes once through the words of the board, in their order, and tries to
/// take the slot of each that names one, by one exchange.
///
/// The runner has to be an idle worker. There is no refusal, and no memory is taken.
#[inline(always)]
pub fn draw<S: Structure>(table: &FlockTable<S>, runner: Runner<S>, n: u32) -> Runner<S>
    requires own { IsOf table.now runner }
    requires ready { MayUseBoard runner }
    ensures own { IsOf table.now result }
    ensures drawn { IsDrawn (S.meaning table.now.structure) n runner result }
{
    let mut runner = runner;
    for word in 0..BOARD_WORDS as u32 {
        if runner.free_nodes().len() >= n as usize {
            return runner;
        }
        runner = draw_one(table, runner, word);
    }
    runner
}

/// One word of the board: where it names no slot, an own free one is given to it. It is a call of its own, as
/// `draw_one` is.
#[inline(never)]
fn spare_one<S: Structure>(table: &FlockTable<S>, runner: Runner<S>, word: u32) -> Runner<S>
    requires own { IsOf table.now runner }
    requires ready { MayUseBoard runner }
    requires few { word < board_words }
    requires many { runner.layout.nodes < length runner.part.nodes.free }
    ensures own { IsOf table.now result }
    ensures one { GivesOne (S.meaning table.now.structure) word runner result }
{
    let (runner, link) = table.board_load(runner, word);
    if link == 0 {
        let free = runner.free_nodes();
        let slot = free[free.len() - 1];
        let (runner, _) = table.board_give(runner, word, slot);
        runner
    } else {
        runner
    }
}

/// While more own node slots are free than the layout gives a worker: goes once through the words of the board, in
/// their order, and tries to give a free slot to each that names none, by one exchange. A slot that isn't given stays
/// free.
///
/// The runner has to be an idle worker. There is no refusal, and no memory is taken.
#[inline(always)]
pub fn spare<S: Structure>(table: &FlockTable<S>, runner: Runner<S>) -> Runner<S>
    requires own { IsOf table.now runner }
    requires ready { MayUseBoard runner }
    ensures own { IsOf table.now result }
    ensures spared { GivesAway (S.meaning table.now.structure) runner result }
{
    let mut runner = runner;
    for word in 0..BOARD_WORDS as u32 {
        if runner.free_nodes().len() <= table.layout().nodes as usize {
            return runner;
        }
        runner = spare_one(table, runner, word);
    }
    runner
}
