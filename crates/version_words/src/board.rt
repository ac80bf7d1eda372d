//! Steps on the board, on which free node slots go from worker to worker.
ghost use Rattle.std.specs.Prelude.{◌≤◌, length};
ghost use Rattle.machine_states.specs.runner_parts.specs.Lists.{slot_given};
ghost use Rattle.machine_states.specs.runner_parts.specs.declared.event.EventKind.TheVariants as kinds;
ghost use Rattle.version_words.specs.TableState.{IsOf};
ghost use Rattle.version_words.specs.Events.{IsEnabled, Makes, Tries};

use crate::plays;
use crate::runner::Runner;
use crate::table::FlockTable;
use machine_states::body_terms::Word;
use machine_states::structure_laws::Structure;
use machine_states::table_words::Spot;

impl<S: Structure> FlockTable<S> {
    /// A word of the board: 0, or the link of a node slot that some worker gave.
    pub fn board_load(&self, mut runner: Runner<S>, word: u32) -> (Runner<S>, u64)
        requires own { IsOf self.now runner }
        requires next { IsEnabled (S.meaning self.now.structure) (kinds.BoardLoad word) runner }
        ensures own { IsOf self.now result.0 }
        ensures event { Makes (S.meaning self.now.structure) (kinds.BoardLoad word) result.1 runner result.0 }
    {
        let found = self.load::<plays::BoardLoad>(&mut runner.seat, Spot::Board(word));
        runner.kept.lists.load_board(word, found);
        (runner, found)
    }

    /// A word of the board goes from the link that the runner read there last to 0. The answer is whether this exchange
    /// won: then the slot is in the own free list.
    pub fn board_take(&self, mut runner: Runner<S>, word: u32, link: u64) -> (Runner<S>, bool)
        requires own { IsOf self.now runner }
        requires next { IsEnabled (S.meaning self.now.structure) (kinds.BoardTake word link) runner }
        ensures own { IsOf self.now result.0 }
        ensures event { Tries (S.meaning self.now.structure) (kinds.BoardTake word link) result.1 runner result.0 }
    {
        let _ = &self.setup;
        let spot = Spot::Board(word);
        let found = self.exchange::<plays::BoardTake>(&mut runner.seat, spot, link, 0);
        let slot = Word::from_bits(link - 1).value();
        runner.kept.lists.draw_slot(word, slot, found == link);
        (runner, found == link)
    }

    /// A word of the board goes from 0 to the link of an own free node slot, behind which as many are left free as the
    /// layout gives a worker. The answer is whether this exchange won: then the slot is in the own free list no more.
    pub fn board_give(&self, mut runner: Runner<S>, word: u32, slot: u32) -> (Runner<S>, bool)
        requires own { IsOf self.now runner }
        requires next { IsEnabled (S.meaning self.now.structure) (kinds.BoardGive word slot) runner }
        requires above { runner.layout.nodes ≤ length (slot_given runner.part.nodes slot).free }
        ensures own { IsOf self.now result.0 }
        ensures event { Tries (S.meaning self.now.structure) (kinds.BoardGive word slot) result.1 runner result.0 }
    {
        let _ = &self.setup;
        let spot = Spot::Board(word);
        let link = slot as u64 + 1;
        let found = self.exchange::<plays::BoardGive>(&mut runner.seat, spot, 0, link);
        runner.kept.lists.give_slot(word, slot, found == 0);
        (runner, found == 0)
    }
}
