//! The commits of a Make and of a Retire, the load of the epoch for a retirement, and the exchange that links a block.
ghost use Rattle.std.specs.Prelude.{◌≡◌, ◌==◌, ◌<◌, ◌^◌, ◌+◌, Some, true, if◌then◌else◌};
ghost use Rattle.machine_states.specs.table_words.specs.declared.access.Access.TheVariants.{Exchanges};
ghost use Rattle.machine_states.specs.runner_parts.specs.declared.event.EventKind.TheVariants as kinds;
ghost use Rattle.version_words.specs.Place.{next_log, KnowsPart};
ghost use Rattle.version_words.specs.TableState.{IsOf};
ghost use Rattle.version_words.specs.Events.{met_by, IsEnabled, Makes};

use crate::log_words::{next_link, next_spot};
use crate::plays;
use crate::runner::Runner;
use crate::table::FlockTable;
use machine_states::structure_laws::Structure;
use machine_states::table_words::Spot;

/// The slot that is agreed on after an exchange that was to agree on this one and found this log word, and of a link
/// the block.
fn agreed_slot(found: u64, slot: u32) -> u32
    requires { found < 2 ^ 32 }
    ensures found { found ≡ (if found == 0 then 0 else result + 1) }
    ensures proposal { found == 0 ≡ true → result ≡ slot }
{
    if found == 0 { slot } else { (found - 1) as u32 }
}

impl<S: Structure> FlockTable<S> {
    /// The next log word: the slot that the run's Make filled is agreed on, where it is still empty. The answer is the
    /// agreed slot, and whether this exchange put it there.
    pub fn make_commit(&self, mut runner: Runner<S>, slot: u32) -> (Runner<S>, u32, bool)
        requires own { IsOf self.now runner }
        requires next { met_by (S.meaning self.now.structure) runner kinds.MakeCommit ≡ Some
            (next_log runner.part.run, Exchanges 0 (slot + 1)) }
        requires linked { KnowsPart runner.part.run }
        ensures own { IsOf self.now result.0 }
        ensures event { Makes (S.meaning self.now.structure) kinds.MakeCommit
            (if result.2 then 0 else result.1 + 1) runner result.0 }
        ensures proposal { result.2 ≡ true → result.1 ≡ slot }
    {
        let _ = &self.setup;
        let spot = next_spot(&*runner.kept);
        let proposal = slot as u64 + 1;
        let found = self.exchange::<plays::MakeCommit>(&mut runner.seat, spot, 0, proposal);
        runner.kept.made(slot, found == 0);
        (runner, agreed_slot(found, slot), found == 0)
    }

    /// The next log word: the node slot that the run's Retire names is agreed on, where it is still empty. The answer
    /// is whether this exchange put it there. Then this runner retires the slot, with the epoch that its run loaded
    /// last.
    pub fn retire_commit(&self, mut runner: Runner<S>, slot: u32) -> (Runner<S>, bool)
        requires own { IsOf self.now runner }
        requires next { met_by (S.meaning self.now.structure) runner kinds.RetireCommit ≡ Some
            (next_log runner.part.run, Exchanges 0 (slot + 1)) }
        requires linked { KnowsPart runner.part.run }
        ensures own { IsOf self.now result.0 }
        ensures event { Makes (S.meaning self.now.structure) kinds.RetireCommit
            (if result.1 then 0 else slot + 1) runner result.0 }
    {
        let _ = &self.setup;
        let spot = next_spot(&*runner.kept);
        let proposal = slot as u64 + 1;
        let found = self.exchange::<plays::RetireCommit>(&mut runner.seat, spot, 0, proposal);
        runner.kept.slot_retired(slot, found == 0);
        (runner, found == 0)
    }

    /// The link behind the last part of the log that the run knows: the block that it emptied is linked there, where
    /// none is yet. The answer is the block that is then linked, and whether this exchange linked it: else the own block
    /// is free again.
    pub fn link_commit(&self, mut runner: Runner<S>, block: u32) -> (Runner<S>, u32, bool)
        requires own { IsOf self.now runner }
        requires next { IsEnabled (S.meaning self.now.structure) (kinds.LinkCommit block) runner }
        ensures own { IsOf self.now result.0 }
        ensures event { Makes (S.meaning self.now.structure) (kinds.LinkCommit block)
            (if result.2 then 0 else result.1 + 1) runner result.0 }
        ensures proposal { result.2 ≡ true → result.1 ≡ block }
    {
        let _ = &self.setup;
        let spot = next_link(&*runner.kept);
        let link = block as u64 + 1;
        let found = self.exchange::<plays::LinkCommit>(&mut runner.seat, spot, 0, link);
        runner.kept.lists.link_block(block, found);
        (runner, agreed_slot(found, block), found == 0)
    }

    /// The epoch, to retire a node slot in a run.
    pub fn epoch_for_retire(&self, mut runner: Runner<S>) -> (Runner<S>, u64)
        requires own { IsOf self.now runner }
        requires next { IsEnabled (S.meaning self.now.structure) kinds.EpochForRetire runner }
        ensures own { IsOf self.now result.0 }
        ensures event { Makes (S.meaning self.now.structure) kinds.EpochForRetire result.1 runner result.0 }
    {
        let epoch = self.load::<plays::EpochForRetire>(&mut runner.seat, Spot::Epoch);
        runner.kept.retired(epoch);
        (runner, epoch)
    }
}
