//! Steps in the order in which a runner makes them.
ghost use Rattle.std.specs.Prelude.{◌≡◌, ◌<◌, ◌≤◌, ◌+◌, ◌&&◌, nat_lt, length, IfOk, None};
ghost use Rattle.machine_states.specs.epoch_core.specs.declared.stage.Stage.TheVariants as stages;
ghost use Rattle.machine_states.specs.epoch_core.specs.State.{last_epoch};
ghost use Rattle.machine_states.specs.epoch_core.specs.Moves.{is_clear};
ghost use Rattle.machine_states.specs.structure_laws.specs.Tray.{tray};
ghost use Rattle.machine_states.specs.First.{worker_part};
ghost use Rattle.version_words.specs.TableState.{IsOf};
ghost use Rattle.version_words.specs.Events.{start_of};
ghost use Rattle.machine_states.specs.table_words.specs.Limits.{IsWithinLimits};
ghost use Rattle.machine_states.specs.table_words.specs.Places.{descriptor_count, descriptor_words};
ghost use Rattle.table_steps.specs.Slots.{slot_of};
ghost use Rattle.version_words.specs.Stages.{IsAt, IsKeeper, HasJoined, HasFree};

use interleave_core::Tray;
use machine_states::body_terms::{Place, Word};
use machine_states::epoch_core::LAST_EPOCH;
use machine_states::map_history::{Op, Request};
use machine_states::runner_steps::slot_count;
use machine_states::table_words::Layout;
use std::alloc::{AllocError, Global};
use version_words::{FlockTable, Runner, Words};

/// Enters, and gives the epoch of the entry.
pub fn enter(table: &FlockTable<Tray>, runner: Runner<Tray>) -> (Runner<Tray>, u64)
    requires own { IsOf table.now runner }
    requires at { IsAt runner stages.Idle None }
    ensures own { IsOf table.now result.0 }
    ensures at { IsAt result.0 (stages.Entered result.1) None }
    ensures number { result.0.number ≡ runner.number }
{
    let (runner, _) = table.enter_load(runner);
    let runner = table.announce(runner);
    table.enter_again(runner)
}

/// Loads a fixed cell in an entry.
pub fn look(
    table: &FlockTable<Tray>,
    runner: Runner<Tray>,
    epoch: u64,
    place: Place,
) -> (Runner<Tray>, Word)
    requires own { IsOf table.now runner }
    requires at { IsAt runner (stages.Entered epoch) None }
    requires fixed { place < 3 }
    ensures own { IsOf table.now result.0 }
    ensures at { IsAt result.0 (stages.Entered epoch) None }
    ensures number { result.0.number ≡ runner.number }
{
    table.load_cell(runner, place)
}

/// Lets the guard go, and leaves: an idle runner keeps no descriptor from its owner.
pub fn exit(table: &FlockTable<Tray>, runner: Runner<Tray>, epoch: u64) -> Runner<Tray>
    requires own { IsOf table.now runner }
    requires at { IsAt runner (stages.Entered epoch) None }
    ensures own { IsOf table.now result }
    ensures at { IsAt result stages.Idle None }
    ensures number { result.number ≡ runner.number }
{
    let runner = table.guard(runner, None);
    table.idle(runner)
}

/// The number of a descriptor among all slots: the node slots come first.
pub fn slot_of(table: &FlockTable<Tray>, descriptor: u32) -> u32
    requires limits { IsWithinLimits table.now.layout }
    requires few { descriptor < descriptor_count table.now.layout }
    ensures { result ≡ slot_of table.now.layout descriptor }
{
    slot_count(table.structure(), table.layout()) + descriptor
}

/// Stores a number into a word of an own free descriptor, whose slot is the given one.
pub fn put(
    table: &FlockTable<Tray>,
    runner: Runner<Tray>,
    descriptor: u32,
    slot: u32,
    word: u32,
    number: u64,
) -> Runner<Tray>
    requires own { IsOf table.now runner }
    requires slot { slot ≡ slot_of table.now.layout descriptor }
    requires at { IsAt runner stages.Idle None }
    requires free { HasFree runner descriptor }
    requires word { word < descriptor_words }
    ensures own { IsOf table.now result }
    ensures at { IsAt result stages.Idle None }
    ensures free { HasFree result descriptor }
    ensures number { result.number ≡ runner.number }
{
    table.private_store(runner, slot, word, number)
}

/// Loads a word of an own free descriptor, whose slot is the given one.
pub fn fetch(
    table: &FlockTable<Tray>,
    runner: Runner<Tray>,
    descriptor: u32,
    slot: u32,
    word: u32,
) -> (Runner<Tray>, u64)
    requires own { IsOf table.now runner }
    requires slot { slot ≡ slot_of table.now.layout descriptor }
    requires at { IsAt runner stages.Idle None }
    requires free { HasFree runner descriptor }
    requires word { word < descriptor_words }
    ensures own { IsOf table.now result.0 }
    ensures at { IsAt result.0 stages.Idle None }
    ensures free { HasFree result.0 descriptor }
    ensures number { result.0.number ≡ runner.number }
{
    table.private_load(runner, slot, word)
}

/// Loads a word of an own free descriptor, whose words begin at this start, as one of a descriptor.
#[inline(always)]
pub fn fetch_word(
    table: &FlockTable<Tray>,
    runner: Runner<Tray>,
    descriptor: u32,
    start: usize,
    word: u32,
) -> (Runner<Tray>, u64)
    requires own { IsOf table.now runner }
    requires start { start ≡ start_of tray table.now descriptor }
    requires at { IsAt runner stages.Idle None }
    requires free { HasFree runner descriptor }
    requires word { word < descriptor_words }
    ensures own { IsOf table.now result.0 }
    ensures at { IsAt result.0 stages.Idle None }
    ensures free { HasFree result.0 descriptor }
    ensures number { result.0.number ≡ runner.number }
{
    table.descriptor_load(runner, descriptor, start, word)
}

/// Loads a request's stamp word.
pub fn entry(table: &FlockTable<Tray>, runner: Runner<Tray>, request: u32) -> (Runner<Tray>, u64)
    requires own { IsOf table.now runner }
    requires at { IsAt runner stages.Idle None }
    requires request { request < length table.now.requests }
    ensures own { IsOf table.now result.0 }
    ensures at { IsAt result.0 stages.Idle None }
    ensures number { result.0.number ≡ runner.number }
{
    table.load_entry(runner, request, false)
}

/// The last announcement of a scan, and the advance where one may be tried. The answer says whether the epoch went on.
fn finish(
    table: &FlockTable<Tray>,
    runner: Runner<Tray>,
    last: u32,
    epoch: u64,
    clear: bool,
) -> (Runner<Tray>, bool)
    requires own { IsOf table.now runner }
    requires last { last ≡ table.now.layout.runners }
    requires at { IsAt runner (stages.Scanning epoch last clear) None }
    ensures own { IsOf table.now result.0 }
    ensures at { IsAt result.0 stages.Idle None }
    ensures number { result.0.number ≡ runner.number }
{
    let (runner, found) = table.scan_one(runner, last);
    if may_advance(epoch, clear, found) {
        table.advance(runner)
    } else {
        (runner, false)
    }
}

/// Whether each announcement so far was idle or the epoch.
fn is_still_clear(epoch: u64, clear: bool, found: u64) -> bool
    ensures { result ≡ clear && is_clear epoch found }
{
    clear && (found == 0 || found == epoch)
}

/// Whether an advance may be tried once the last announcement was found so.
fn may_advance(epoch: u64, clear: bool, found: u64) -> bool
    ensures { result ≡ (clear && is_clear epoch found) && nat_lt epoch last_epoch }
{
    is_still_clear(epoch, clear, found) && epoch < LAST_EPOCH
}

/// Scans the announcements, and advances the epoch where it may. The answer says whether the epoch went on.
pub fn collect(table: &FlockTable<Tray>, runner: Runner<Tray>) -> (Runner<Tray>, bool)
    requires own { IsOf table.now runner }
    requires at { IsAt runner stages.Idle None }
    ensures own { IsOf table.now result.0 }
    ensures at { IsAt result.0 stages.Idle None }
    ensures number { result.0.number ≡ runner.number }
{
    let (scanning, epoch) = table.scan_epoch(runner);
    let mut runner = scanning;
    let mut clear = true;
    let last = table.layout().runners;
    for next in 0..last {
        let (scanned, found) = table.scan_one(runner, next);
        runner = scanned;
        clear = is_still_clear(epoch, clear, found);
    }
    finish(table, runner, last, epoch, clear)
}

/// The next worker, whose number is the given one.
fn split(
    table: &FlockTable<Tray>,
    alloc: Global,
    keeper: Runner<Tray>,
    number: u32,
) -> Result<(Runner<Tray>, Runner<Tray>), AllocError>
    requires own { IsOf table.now keeper }
    requires keeper { IsKeeper keeper number }
    requires unjoined { HasJoined keeper 0 }
    requires few { number < table.now.layout.runners }
    requires one { table.now.layout.sections ≡ 1 }
    ensures own { IfOk result (λ x. IsOf table.now x.0 × IsOf table.now x.1) }
    ensures keeper { IfOk result (λ x. IsKeeper x.0 (number + 1) × HasJoined x.0 0) }
    ensures worker { IfOk result (λ x. IsAt x.1 stages.Idle None × (x.1.number ≡ number)) }
    ensures free { IfOk result (λ x. HasFree x.1 number) }
    ensures part { IfOk result (λ x. x.1.part ≡ worker_part tray table.now.layout number) }
{
    match table.runner(alloc, keeper) {
        Ok(both) => Ok(both),
        Err(_) => Err(AllocError),
    }
}

/// The keeper after it joined this worker, whose number is the given one.
fn join(
    table: &FlockTable<Tray>,
    keeper: Runner<Tray>,
    worker: Runner<Tray>,
    number: u32,
    splits: u32,
) -> Runner<Tray>
    requires own { IsOf table.now keeper × IsOf table.now worker }
    requires keeper { IsKeeper keeper splits × HasJoined keeper number }
    requires number { worker.number ≡ number }
    requires few { number < table.now.layout.runners }
    ensures own { IsOf table.now result }
    ensures keeper { IsKeeper result splits × HasJoined result (number + 1) }
{
    table.join_runner(keeper, worker)
}

/// A table with two node slots and one descriptor for each of two workers, and one request.
pub fn new_table(alloc: Global) -> Result<(FlockTable<Tray>, Runner<Tray>), AllocError>
    ensures own { IfOk result (λ x. IsOf x.0 x.1) }
    ensures keeper { IfOk result (λ x. IsKeeper x.1 0 × HasJoined x.1 0) }
    ensures sizes { IfOk result (λ x. (x.0.layout.runners ≡ 2) × (x.0.layout.sections ≡ 1)
        × (length x.0.requests ≡ 1)) }
    ensures limits { IfOk result (λ x. IsWithinLimits x.0.layout) }
{
    let layout = Layout {
        runners: 2,
        nodes: 2,
        sections: 1,
        version_max: 4294967295,
    };
    let requests = [Request {
        trace: 0,
        number: 0,
        op: Op::Get(1),
    }];
    let (table, keeper) = FlockTable::new(alloc, Tray, layout, &requests)?;
    Ok((table, keeper))
}

/// The keeper and two workers.
pub fn crew(
    table: &FlockTable<Tray>,
    alloc: Global,
    keeper: Runner<Tray>,
) -> Result<(Runner<Tray>, Runner<Tray>, Runner<Tray>), AllocError>
    requires own { IsOf table.now keeper }
    requires keeper { IsKeeper keeper 0 × HasJoined keeper 0 }
    requires two { (table.now.layout.runners ≡ 2) × (table.now.layout.sections ≡ 1) }
    ensures own { IfOk result (λ x. IsOf table.now x.0 × IsOf table.now x.1 × IsOf table.now x.2) }
    ensures keeper { IfOk result (λ x. IsKeeper x.0 2 × HasJoined x.0 0) }
    ensures workers { IfOk result (λ x. IsAt x.1 stages.Idle None × IsAt x.2 stages.Idle None) }
    ensures numbers { IfOk result (λ x. (x.1.number ≡ 0) × (x.2.number ≡ 1)) }
    ensures free { IfOk result (λ x. HasFree x.1 0 × HasFree x.2 1) }
    ensures parts { IfOk result (λ x. (x.1.part ≡ worker_part tray table.now.layout 0)
        × (x.2.part ≡ worker_part tray table.now.layout 1)) }
{
    let (keeper, first) = split(table, alloc, keeper, 0)?;
    let (keeper, second) = split(table, alloc, keeper, 1)?;
    Ok((keeper, first, second))
}

/// The words after both workers were joined.
pub fn gather(
    table: FlockTable<Tray>,
    keeper: Runner<Tray>,
    first: Runner<Tray>,
    second: Runner<Tray>,
) -> Words<Tray>
    requires own { IsOf table keeper × IsOf table first × IsOf table second }
    requires keeper { IsKeeper keeper 2 × HasJoined keeper 0 }
    requires numbers { (first.number ≡ 0) × (second.number ≡ 1) }
    requires two { table.layout.runners ≡ 2 }
    ensures requests { result.requests ≡ table.requests }
    ensures layout { result.layout ≡ table.layout }
{
    let keeper = join(&table, keeper, first, 0, 2);
    let keeper = join(&table, keeper, second, 1, 2);
    table.close(keeper)
}
