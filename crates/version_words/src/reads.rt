//! Steps of a read without a lock.
ghost use Rattle.std.specs.Prelude.{◌≡◌, Some};
ghost use Rattle.machine_states.specs.table_words.specs.declared.spot.Spot.TheVariants as spots;
ghost use Rattle.machine_states.specs.table_words.specs.declared.access.Access.TheVariants.{Loads, Exchanges};
ghost use Rattle.machine_states.specs.runner_parts.specs.declared.event.EventKind.TheVariants as kinds;
ghost use Rattle.version_words.specs.TableState.{IsOf};
ghost use Rattle.version_words.specs.Events.{met_by, IsMade, Makes, Leaves};

use crate::plays;
use crate::runner::Runner;
use crate::table::FlockTable;
use machine_states::body_terms::Thunk;
use machine_states::runner_steps::agreed_on;
use machine_states::structure_laws::Structure;
use machine_states::table_words::Spot;

impl<S: Structure> FlockTable<S> {
    /// A read is announced with its thunk, by an exchange that leaves the own announcement as it is.
    pub fn read_plan(&self, mut runner: Runner<S>, thunk: &Thunk) -> Runner<S>
        requires own { IsOf self.now runner }
        requires next { met_by (S.meaning self.now.structure) runner (kinds.ReadPlan thunk.now) ≡ Some
            (spots.Announcement runner.number, Exchanges 0 0) }
        ensures own { IsOf self.now result }
        ensures event { IsMade (S.meaning self.now.structure) (kinds.ReadPlan thunk.now) runner result }
    {
        let spot = Spot::Announcement(runner.number);
        self.exchange_with::<plays::ReadPlan>(&mut runner.seat, spot, 0, 0, thunk);
        runner
    }

    /// The clock, for the read that was announced.
    pub fn read_clock(&self, mut runner: Runner<S>) -> (Runner<S>, u64)
        requires own { IsOf self.now runner }
        requires next { met_by (S.meaning self.now.structure) runner kinds.ReadClock ≡ Some (spots.Clock, Loads) }
        ensures own { IsOf self.now result.0 }
        ensures event { Makes (S.meaning self.now.structure) kinds.ReadClock result.1 runner result.0 }
    {
        let clock = self.load::<plays::ReadClock>(&mut runner.seat, Spot::Clock);
        (runner, clock)
    }

    /// The reply word of the read's request goes from 0 to this one. The answer is what then stands there.
    pub fn read_reply(&self, mut runner: Runner<S>, request: u32, reply: u64) -> (Runner<S>, u64)
        requires own { IsOf self.now runner }
        requires next { met_by (S.meaning self.now.structure) runner kinds.ReadReply ≡ Some
            (spots.Reply request, Exchanges 0 reply) }
        ensures own { IsOf self.now result.0 }
        ensures event { Leaves (S.meaning self.now.structure) kinds.ReadReply result.1 runner result.0 }
    {
        let spot = Spot::Reply(request);
        let found = self.exchange::<plays::ReadReply>(&mut runner.seat, spot, 0, reply);
        (runner, agreed_on(found, reply))
    }

    /// Then the stamp word of that request goes from 0 to this stamp. The answer is what then stands there.
    pub fn read_stamp(&self, mut runner: Runner<S>, request: u32, stamp: u64) -> (Runner<S>, u64)
        requires own { IsOf self.now runner }
        requires next { met_by (S.meaning self.now.structure) runner kinds.ReadStamp ≡ Some
            (spots.Stamp request, Exchanges 0 stamp) }
        ensures own { IsOf self.now result.0 }
        ensures event { Leaves (S.meaning self.now.structure) kinds.ReadStamp result.1 runner result.0 }
    {
        let spot = Spot::Stamp(request);
        let found = self.exchange::<plays::ReadStamp>(&mut runner.seat, spot, 0, stamp);
        (runner, agreed_on(found, stamp))
    }
}
