//! Steps by which a runner scans the announcements and advances the epoch.
ghost use Rattle.std.specs.Prelude.{◌≡◌};
ghost use Rattle.machine_states.specs.runner_parts.specs.declared.event.EventKind.TheVariants as kinds;
ghost use Rattle.version_words.specs.TableState.{IsOf};
ghost use Rattle.version_words.specs.Events.{IsEnabled, Makes, Tries};

use crate::plays;
use crate::runner::Runner;
use crate::table::FlockTable;
use machine_states::epoch_core::Stage;
use machine_states::structure_laws::Structure;
use machine_states::table_words::Spot;

impl<S: Structure> FlockTable<S> {
    /// The epoch, at the start of a scan.
    pub fn scan_epoch(&self, mut runner: Runner<S>) -> (Runner<S>, u64)
        requires own { IsOf self.now runner }
        requires next { IsEnabled (S.meaning self.now.structure) kinds.ScanEpoch runner }
        ensures own { IsOf self.now result.0 }
        ensures event { Makes (S.meaning self.now.structure) kinds.ScanEpoch result.1 runner result.0 }
    {
        let epoch = self.load::<plays::ScanEpoch>(&mut runner.seat, Spot::Epoch);
        runner.kept.lists.set_stage(Stage::Scanning {
            epoch,
            next: 0,
            clear: true,
        });
        (runner, epoch)
    }

    /// The next announcement. After the last one the scan is over, unless an advance may be tried.
    pub fn scan_one(&self, mut runner: Runner<S>, announcement: u32) -> (Runner<S>, u64)
        requires own { IsOf self.now runner }
        requires next { IsEnabled (S.meaning self.now.structure) (kinds.ScanOne announcement) runner }
        ensures own { IsOf self.now result.0 }
        ensures event { Makes (S.meaning self.now.structure) (kinds.ScanOne announcement) result.1 runner result.0 }
    {
        let found = self.load::<plays::ScanOne>(&mut runner.seat, Spot::Announcement(announcement));
        runner
            .kept
            .lists
            .scan_one(self.setup.layout, announcement, found);
        (runner, found)
    }

    /// The epoch goes on by one, if it is still the one of the scan. The answer says whether this exchange did it.
    pub fn advance(&self, mut runner: Runner<S>) -> (Runner<S>, bool)
        requires own { IsOf self.now runner }
        requires next { IsEnabled (S.meaning self.now.structure) kinds.Advance runner }
        ensures own { IsOf self.now result.0 }
        ensures event { Tries (S.meaning self.now.structure) kinds.Advance result.1 runner result.0 }
    {
        let epoch = runner.kept.lists.scanned();
        let found = self.exchange::<plays::Advance>(
            &mut runner.seat,
            Spot::Epoch,
            epoch,
            epoch + 1,
        );
        runner.kept.lists.advance();
        (runner, found == epoch)
    }
}
