//! Steps of a run on words that runners share, and loads of cells.
ghost use Rattle.std.specs.Prelude.{◌≡◌, ◌<◌, Some, Bool, true, false};
ghost use Rattle.machine_states.specs.table_words.specs.declared.spot.Spot.TheVariants as spots;
ghost use Rattle.machine_states.specs.table_words.specs.declared.access.Access.TheVariants.{Loads, Exchanges, Raises};
ghost use Rattle.machine_states.specs.runner_parts.specs.declared.event.EventKind.TheVariants as kinds;
ghost use Rattle.version_words.specs.Naming.{load_of};
ghost use Rattle.version_words.specs.Kept.{IsUnseen, IsSeen};
ghost use Rattle.version_words.specs.TableState.{IsOf};
ghost use Rattle.version_words.specs.Events.{met_by, IsEnabled, Makes, IsMade};

use crate::plays;
use crate::runner::Runner;
use crate::table::FlockTable;
use machine_states::body_terms::{Place, Word};
use machine_states::structure_laws::Structure;
use machine_states::table_words::Spot;
use runner_block::Block;

impl<S: Structure> FlockTable<S> {
    /// Whether this word of a cell makes a runner sure of a descriptor under which blocks may lie in its limbo.
    #[inline(always)]
    fn makes_sure(&self, kept: &Block, place: Place, word: u64) -> bool
        ensures none { result ≡ false → kept.now.place.inside ≡ false
            → IsUnseen (S.meaning self.now.structure) kept.now place word }
        ensures some { result ≡ true → IsSeen (S.meaning self.now.structure) kept.now place word }
    {
        kept.awaits(word) && self.setup.structure.is_lock(place)
    }

    /// The word of this cell: outside a run one that the runner may read, in a run the one that comes next.
    pub fn load_cell(&self, mut runner: Runner<S>, place: Place) -> (Runner<S>, Word)
        requires own { IsOf self.now runner }
        requires next { met_by (S.meaning self.now.structure) runner (load_of runner.part.run place) ≡ Some
            (spots.Cell place, Loads) }
        ensures own { IsOf self.now result.0 }
        ensures event { Makes (S.meaning self.now.structure) (load_of runner.part.run place) result.1 runner result.0 }
    {
        let word = self.load::<plays::LoadCell>(&mut runner.seat, Spot::Cell(place));
        let sure = self.makes_sure(&*runner.kept, place, word);
        runner.kept.saw(sure, word);
        (runner, Word::from_bits(word))
    }

    /// The clock.
    pub fn clock_load(&self, mut runner: Runner<S>) -> (Runner<S>, u64)
        requires own { IsOf self.now runner }
        requires next { met_by (S.meaning self.now.structure) runner kinds.ClockLoad ≡ Some (spots.Clock, Loads) }
        ensures own { IsOf self.now result.0 }
        ensures event { Makes (S.meaning self.now.structure) kinds.ClockLoad result.1 runner result.0 }
    {
        let clock = self.load::<plays::ClockLoad>(&mut runner.seat, Spot::Clock);
        (runner, clock)
    }

    /// The nested lock's word.
    pub fn nested_load(&self, mut runner: Runner<S>, place: Place) -> (Runner<S>, Word)
        requires own { IsOf self.now runner }
        requires next { met_by (S.meaning self.now.structure) runner kinds.NestedLoad ≡ Some (spots.Cell place, Loads) }
        ensures own { IsOf self.now result.0 }
        ensures event { Makes (S.meaning self.now.structure) kinds.NestedLoad result.1 runner result.0 }
    {
        let word = self.load::<plays::NestedLoad>(&mut runner.seat, Spot::Cell(place));
        (runner, Word::from_bits(word))
    }

    /// The nested lock's word, after the exchange that was to take it.
    pub fn outcome_load(&self, mut runner: Runner<S>, place: Place) -> (Runner<S>, Word)
        requires own { IsOf self.now runner }
        requires next { met_by (S.meaning self.now.structure) runner kinds.OutcomeLoad
            ≡ Some (spots.Cell place, Loads) }
        ensures own { IsOf self.now result.0 }
        ensures event { Makes (S.meaning self.now.structure) kinds.OutcomeLoad result.1 runner result.0 }
    {
        let word = self.load::<plays::OutcomeLoad>(&mut runner.seat, Spot::Cell(place));
        (runner, Word::from_bits(word))
    }

    /// The clock goes up to this number, if it is below.
    pub fn clock_raise(&self, mut runner: Runner<S>, number: u64) -> Runner<S>
        requires own { IsOf self.now runner }
        requires next { met_by (S.meaning self.now.structure) runner kinds.ClockRaise
            ≡ Some (spots.Clock, Raises number) }
        ensures own { IsOf self.now result }
        ensures event { IsMade (S.meaning self.now.structure) kinds.ClockRaise runner result }
    {
        self.raise::<plays::ClockRaise>(&mut runner.seat, Spot::Clock, number);
        runner
    }

    /// The cell goes from one word to the other, if it still holds the first. The answer is what it held.
    pub fn exchange_cell(
        &self,
        mut runner: Runner<S>,
        place: Place,
        old: Word,
        new: Word,
    ) -> (Runner<S>, Word)
        requires own { IsOf self.now runner }
        requires next { met_by (S.meaning self.now.structure) runner kinds.ExchangeCell ≡ Some
            (spots.Cell place, Exchanges old new) }
        ensures own { IsOf self.now result.0 }
        ensures event { Makes (S.meaning self.now.structure) kinds.ExchangeCell result.1 runner result.0 }
    {
        let spot = Spot::Cell(place);
        let found = self.exchange::<plays::ExchangeCell>(
            &mut runner.seat,
            spot,
            old.bits(),
            new.bits(),
        );
        (runner, Word::from_bits(found))
    }
}
