//! Steps that open a run.
ghost use Rattle.std.specs.Prelude.{◌≡◌, Some, if◌then◌else◌};
ghost use Rattle.machine_states.specs.table_words.specs.declared.spot.Spot.TheVariants as spots;
ghost use Rattle.machine_states.specs.table_words.specs.declared.access.Access.TheVariants.{Loads};
ghost use Rattle.machine_states.specs.runner_parts.specs.declared.event.EventKind.TheVariants as kinds;
ghost use Rattle.version_words.specs.Naming.{open_of};
ghost use Rattle.version_words.specs.Place.{opened_of, own_done};
ghost use Rattle.version_words.specs.TableState.{IsOf};
ghost use Rattle.version_words.specs.Events.{met_by, Makes, start_of};

use crate::plays;
use crate::runner::Runner;
use crate::table::FlockTable;
use machine_states::structure_laws::Structure;
use machine_states::table_words::Spot;

impl<S: Structure> FlockTable<S> {
    /// The next thunk word of the run's descriptor, whose words begin at this start; outside a run the first one of a
    /// descriptor of which the runner is sure, with which a run begins. Its index is how many were loaded.
    #[inline(always)]
    pub fn load_thunk(
        &self,
        mut runner: Runner<S>,
        descriptor: u32,
        start: usize,
        index: u32,
    ) -> (Runner<S>, u64)
        requires own { IsOf self.now runner }
        requires start { start ≡ start_of (S.meaning self.now.structure) self.now descriptor }
        requires index { index ≡ opened_of runner.part.run }
        requires next { met_by (S.meaning self.now.structure) runner (open_of runner.part.run descriptor) ≡ Some
            (spots.ThunkWord descriptor index, Loads) }
        ensures own { IsOf self.now result.0 }
        ensures event { Makes (S.meaning self.now.structure) (open_of runner.part.run descriptor)
            result.1 runner result.0 }
    {
        let spot = Spot::ThunkWord(descriptor, index);
        let at = self.setup.sizes.word_at(descriptor, start, index);
        let word = self.load_at::<plays::LoadThunk>(&mut runner.seat, spot, at);
        runner.kept.place.opened(descriptor, index, word);
        (runner, word)
    }

    /// The done word of the run's descriptor: whether it is set.
    pub fn load_done(&self, mut runner: Runner<S>) -> (Runner<S>, bool)
        requires own { IsOf self.now runner }
        requires next { met_by (S.meaning self.now.structure) runner kinds.LoadDone
            ≡ Some (own_done runner.part.run, Loads) }
        ensures own { IsOf self.now result.0 }
        ensures event { Makes (S.meaning self.now.structure) kinds.LoadDone
            (if result.1 then 1 else 0) runner result.0 }
    {
        let _ = &self.setup;
        let spot = Spot::DoneWord(runner.kept.place.descriptor);
        let found = self.load::<plays::LoadDone>(&mut runner.seat, spot);
        runner.kept.place.inside = true;
        (runner, found != 0)
    }
}
