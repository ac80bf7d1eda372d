//! Steps of a run on the words of its descriptor, of its request and of its locks.
ghost use Rattle.std.specs.Prelude.{◌≡◌, ◌<◌, ◌-◌, ◌^◌, ◌%◌, Some, Bool, slice_index};
ghost use Rattle.machine_states.specs.body_terms.specs.Word.{version_of, held_word, next_word};
ghost use Rattle.machine_states.specs.body_terms.specs.Run.{written_once};
ghost use Rattle.machine_states.specs.table_words.specs.declared.spot.Spot.TheVariants as spots;
ghost use Rattle.machine_states.specs.table_words.specs.declared.access.Access.TheVariants.{Loads, Exchanges};
ghost use Rattle.machine_states.specs.runner_parts.specs.declared.event.EventKind.TheVariants as kinds;
ghost use Rattle.version_words.specs.Place.{next_log, KnowsPart, own_done, own_stamp, own_reply, held_by_run};
ghost use Rattle.version_words.specs.TableState.{IsOf};
ghost use Rattle.version_words.specs.Events.{met_by, IsMade, Leaves, Commits};

use crate::log_words::next_spot;
use crate::plays;
use crate::runner::Runner;
use crate::table::FlockTable;
use machine_states::body_terms::{Place, Word};
use machine_states::runner_steps::{agreed_on, held_word};
use machine_states::structure_laws::Structure;
use machine_states::table_words::Spot;

impl<S: Structure> FlockTable<S> {
    /// The next log word: this word is agreed on, where it is still empty. The answer is the agreed word, and whether
    /// this exchange put it there.
    pub fn commit_word(&self, mut runner: Runner<S>, word: u64) -> (Runner<S>, u64, bool)
        requires own { IsOf self.now runner }
        requires next { met_by (S.meaning self.now.structure) runner kinds.Commit ≡ Some
            (next_log runner.part.run, Exchanges 0 word) }
        requires linked { KnowsPart runner.part.run }
        ensures own { IsOf self.now result.0 }
        ensures event { Commits (S.meaning self.now.structure) kinds.Commit result.1 result.2 runner result.0 }
    {
        let place = runner.kept.place;
        let spot = next_spot(&*runner.kept);
        let found = self.exchange::<plays::Commit>(&mut runner.seat, spot, 0, word);
        runner.kept.place.agreed = place.agreed + 1;
        (runner, agreed_on(found, word), found == 0)
    }

    /// The next log word, for a nested lock's word. The answer is the agreed word.
    pub fn outcome_commit(&self, mut runner: Runner<S>, word: Word) -> (Runner<S>, Word)
        requires own { IsOf self.now runner }
        requires next { met_by (S.meaning self.now.structure) runner kinds.OutcomeCommit ≡ Some
            (next_log runner.part.run, Exchanges 0 word) }
        requires linked { KnowsPart runner.part.run }
        ensures own { IsOf self.now result.0 }
        ensures event { Leaves (S.meaning self.now.structure) kinds.OutcomeCommit result.1 runner result.0 }
    {
        let place = runner.kept.place;
        let spot = next_spot(&*runner.kept);
        let found = self.exchange::<plays::OutcomeCommit>(&mut runner.seat, spot, 0, word.bits());
        runner.kept.place.agreed = place.agreed + 1;
        (runner, Word::from_bits(agreed_on(found, word.bits())))
    }

    /// The done word of the run's descriptor goes from 0 to 1.
    pub fn set_done(&self, mut runner: Runner<S>) -> Runner<S>
        requires own { IsOf self.now runner }
        requires next { met_by (S.meaning self.now.structure) runner kinds.SetDone ≡ Some
            (own_done runner.part.run, Exchanges 0 1) }
        ensures own { IsOf self.now result }
        ensures event { IsMade (S.meaning self.now.structure) kinds.SetDone runner result }
    {
        let spot = Spot::DoneWord(runner.kept.place.descriptor);
        self.exchange::<plays::SetDone>(&mut runner.seat, spot, 0, 1);
        runner.kept.place.inside = false;
        runner
    }

    /// The request's stamp word goes from 0 to this stamp. The answer is what then stands there.
    pub fn stamp_exchange(&self, mut runner: Runner<S>, stamp: u64) -> (Runner<S>, u64)
        requires own { IsOf self.now runner }
        requires next { met_by (S.meaning self.now.structure) runner kinds.StampExchange ≡ Some
            (own_stamp runner.part.run, Exchanges 0 stamp) }
        ensures own { IsOf self.now result.0 }
        ensures event { Leaves (S.meaning self.now.structure) kinds.StampExchange result.1 runner result.0 }
    {
        let spot = Spot::Stamp(runner.kept.place.request);
        let found = self.exchange::<plays::StampExchange>(&mut runner.seat, spot, 0, stamp);
        (runner, agreed_on(found, stamp))
    }

    /// The request's reply word goes from 0 to this one. The answer is what then stands there.
    pub fn reply_exchange(&self, mut runner: Runner<S>, reply: u64) -> (Runner<S>, u64)
        requires own { IsOf self.now runner }
        requires next { met_by (S.meaning self.now.structure) runner kinds.ReplyExchange ≡ Some
            (own_reply runner.part.run, Exchanges 0 reply) }
        ensures own { IsOf self.now result.0 }
        ensures event { Leaves (S.meaning self.now.structure) kinds.ReplyExchange result.1 runner result.0 }
    {
        let spot = Spot::Reply(runner.kept.place.request);
        let found = self.exchange::<plays::ReplyExchange>(&mut runner.seat, spot, 0, reply);
        (runner, agreed_on(found, reply))
    }

    /// The nested lock goes from this free word to the one that names the run's descriptor, if it still holds the free
    /// word.
    pub fn nested_hold(&self, mut runner: Runner<S>, place: Place, word: Word) -> Runner<S>
        requires own { IsOf self.now runner }
        requires next { met_by (S.meaning self.now.structure) runner kinds.NestedHold ≡ Some
            (spots.Cell place, Exchanges word (held_by_run runner.part.run word)) }
        ensures own { IsOf self.now result }
        ensures event { IsMade (S.meaning self.now.structure) kinds.NestedHold runner result }
    {
        let _ = &self.setup;
        let spot = Spot::Cell(place);
        let held = held_word(runner.kept.place.descriptor, word);
        self.exchange::<plays::NestedHold>(&mut runner.seat, spot, word.bits(), held.bits());
        runner
    }

    /// The lock goes from the word with which the run's section holds it to the next free word, if it is still held so.
    /// The given word is the free one that the lock had before. With the section's own lock, which comes last, the run
    /// is over, and where it was of the section that this runner published, its descriptor goes into limbo.
    pub fn release(&self, mut runner: Runner<S>, place: Place, word: Word) -> Runner<S>
        requires own { IsOf self.now runner }
        requires next { let held = held_by_run runner.part.run word in met_by (S.meaning self.now.structure) runner
            kinds.Release ≡ Some (spots.Cell place, Exchanges held (next_word held 0)) }
        ensures own { IsOf self.now result }
        ensures event { IsMade (S.meaning self.now.structure) kinds.Release runner result }
    {
        let _ = &self.setup;
        let spot = Spot::Cell(place);
        let held = held_word(runner.kept.place.descriptor, word);
        let free = held.next(0);
        self.exchange::<plays::Release>(&mut runner.seat, spot, held.bits(), free.bits());
        runner.kept.released(place);
        runner
    }
}
