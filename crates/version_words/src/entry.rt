//! Steps by which a runner enters and leaves.
ghost use Rattle.std.specs.Prelude.{◌≡◌, ℕ};
ghost use Rattle.machine_states.specs.runner_parts.specs.declared.event.EventKind.TheVariants as kinds;
ghost use Rattle.version_words.specs.TableState.{IsOf};
ghost use Rattle.version_words.specs.Events.{IsEnabled, Makes};

use crate::plays;
use crate::runner::Runner;
use crate::table::FlockTable;
use machine_states::epoch_core::Stage;
use machine_states::structure_laws::Structure;
use machine_states::table_words::Spot;

impl<S: Structure> FlockTable<S> {
    /// The epoch, at the start of an entry.
    pub fn enter_load(&self, mut runner: Runner<S>) -> (Runner<S>, u64)
        requires own { IsOf self.now runner }
        requires next { IsEnabled (S.meaning self.now.structure) kinds.EnterLoad runner }
        ensures own { IsOf self.now result.0 }
        ensures event { Makes (S.meaning self.now.structure) kinds.EnterLoad result.1 runner result.0 }
    {
        let epoch = self.load::<plays::EnterLoad>(&mut runner.seat, Spot::Epoch);
        runner.kept.lists.set_stage(Stage::Loaded(epoch));
        (runner, epoch)
    }

    /// The epoch that was loaded becomes the own announcement.
    pub fn announce(&self, mut runner: Runner<S>) -> Runner<S>
        requires own { IsOf self.now runner }
        requires next { IsEnabled (S.meaning self.now.structure) kinds.Announce runner }
        ensures own { IsOf self.now result }
        ensures event { (found : ℕ) → Makes (S.meaning self.now.structure) kinds.Announce found runner result }
    {
        let epoch = runner.kept.lists.loaded();
        let spot = Spot::Announcement(runner.number);
        self.store::<plays::Announce>(&mut runner.seat, spot, epoch);
        runner.kept.lists.set_stage(Stage::Announced);
        runner
    }

    /// The epoch, once more after the announcement: the runner is entered with it.
    pub fn enter_again(&self, mut runner: Runner<S>) -> (Runner<S>, u64)
        requires own { IsOf self.now runner }
        requires next { IsEnabled (S.meaning self.now.structure) kinds.EnterAgain runner }
        ensures own { IsOf self.now result.0 }
        ensures event { Makes (S.meaning self.now.structure) kinds.EnterAgain result.1 runner result.0 }
    {
        let epoch = self.load::<plays::EnterAgain>(&mut runner.seat, Spot::Epoch);
        runner.kept.lists.enter(epoch);
        (runner, epoch)
    }

    /// The own announcement becomes 0, idle. The own guard word names nothing.
    pub fn idle(&self, mut runner: Runner<S>) -> Runner<S>
        requires own { IsOf self.now runner }
        requires next { IsEnabled (S.meaning self.now.structure) kinds.Idle runner }
        ensures own { IsOf self.now result }
        ensures event { (found : ℕ) → Makes (S.meaning self.now.structure) kinds.Idle found runner result }
    {
        let spot = Spot::Announcement(runner.number);
        self.store::<plays::Idle>(&mut runner.seat, spot, 0);
        runner.kept.lists.leave();
        runner
    }

    /// A request's stamp word, or its reply word.
    pub fn load_entry(&self, mut runner: Runner<S>, request: u32, reply: bool) -> (Runner<S>, u64)
        requires own { IsOf self.now runner }
        requires next { IsEnabled (S.meaning self.now.structure) (kinds.LoadEntry request reply) runner }
        ensures own { IsOf self.now result.0 }
        ensures event { Makes (S.meaning self.now.structure) (kinds.LoadEntry request reply) result.1 runner result.0 }
    {
        let spot = if reply {
            Spot::Reply(request)
        } else {
            Spot::Stamp(request)
        };
        let found = self.load::<plays::LoadEntry>(&mut runner.seat, spot);
        (runner, found)
    }
}
