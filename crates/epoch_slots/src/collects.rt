//! The scan of the announcements, and the node slots that come out of limbo.
ghost use Rattle.std.specs.Prelude.{◌≡◌, ◌<◌, ◌&&◌, nat_lt, None};
ghost use Rattle.machine_states.specs.epoch_core.specs.declared.stage.Stage.TheVariants as stages;
ghost use Rattle.machine_states.specs.epoch_core.specs.State.{last_epoch};
ghost use Rattle.machine_states.specs.epoch_core.specs.Moves.{is_clear};
ghost use Rattle.version_words.specs.TableState.{IsOf};
ghost use Rattle.version_words.specs.Stages.{IsAt};
ghost use Rattle.epoch_slots.specs.Collects.{IsTidy, Collects, HasScanned, EndsScan};

use crate::hand::look_back;
use machine_states::epoch_core::LAST_EPOCH;
use machine_states::structure_laws::Structure;
use version_words::{FlockTable, Runner};

/// Whether each announcement so far was idle or the epoch.
fn is_still_clear(epoch: u64, clear: bool, found: u64) -> bool
    ensures { result ≡ clear && is_clear epoch found }
{
    clear && (found == 0 || found == epoch)
}

/// Whether an advance may be tried once the last announcement was found so.
fn may_advance(epoch: u64, clear: bool, found: u64) -> bool
    ensures { result ≡ (clear && is_clear epoch found) && nat_lt epoch last_epoch }
{
    is_still_clear(epoch, clear, found) && epoch < LAST_EPOCH
}

/// Loads the epoch, and then the workers' announcements one after the other. Gives the epoch, and whether
/// each was idle or the epoch.
fn scan<S: Structure>(table: &FlockTable<S>, runner: Runner<S>) -> (Runner<S>, u64, bool)
    requires own { IsOf table.now runner }
    requires idle { IsAt runner stages.Idle None }
    ensures own { IsOf table.now result.0 }
    ensures scanned { HasScanned (S.meaning table.now.structure) table.now.layout.runners result.1 result.2 runner
        result.0 }
{
    let (scanning, epoch) = table.scan_epoch(runner);
    let mut runner = scanning;
    let mut clear = true;
    for next in 0..table.layout().runners {
        let (scanned, found) = table.scan_one(runner, next);
        runner = scanned;
        clear = is_still_clear(epoch, clear, found);
    }
    (runner, epoch, clear)
}

/// Loads the last announcement, the keeper's, and tries the advance where it may. The node slots that have waited long
/// enough are in the hand then.
fn finish<S: Structure>(
    table: &FlockTable<S>,
    runner: Runner<S>,
    epoch: u64,
    clear: bool,
) -> Runner<S>
    requires own { IsOf table.now runner }
    requires at { IsAt runner (stages.Scanning epoch table.now.layout.runners clear) None }
    ensures own { IsOf table.now result }
    ensures ends { EndsScan (S.meaning table.now.structure) table.now.layout.runners epoch clear runner result }
{
    let (runner, found) = table.scan_one(runner, table.layout().runners);
    if may_advance(epoch, clear, found) {
        table.advance(runner).0
    } else {
        runner
    }
}

/// One scan of the announcements, and one try to take the epoch on, where every announcement was idle or the epoch. The
/// node slots that were retired two epochs before the one that the scan reached leave limbo, and nothing else does: of
/// each the five cells are loaded, by which it goes to the free list or, where one is at the greatest version, to the
/// worn list, in limbo's order.
///
/// The runner has to be idle with an empty hand, no sweep in progress and a guard word that names nothing. There is no
/// refusal, and no memory is taken. It makes 2 steps and one for each runner, one more where the advance is tried, and
/// five for each node slot that leaves limbo (Fraser, 2004).
pub fn collect<S: Structure>(table: &FlockTable<S>, runner: Runner<S>) -> Runner<S>
    requires own { IsOf table.now runner }
    requires tidy { IsTidy runner }
    ensures own { IsOf table.now result }
    ensures collects { Collects (S.meaning table.now.structure) runner result }
{
    let (runner, epoch, clear) = scan(table, runner);
    let runner = finish(table, runner, epoch, clear);
    look_back(table, runner)
}
