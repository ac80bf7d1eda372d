//! How a runner comes by free slots before an attempt: it collects and sweeps where it has to, and gives node slots to
//! the board or takes some there.
ghost use Rattle.std.specs.Prelude.{◌≡◌, ◌<◌};
ghost use Rattle.version_words.specs.TableState.{IsOf};
ghost use Rattle.caller_facts.specs.epoch_slots.specs.Collects.{IsTidy, Collects};
ghost use Rattle.attempts.specs.Reclaims.{is_much, lacks_slots, needs_sweep, has_much_in_limbo, CollectsWhere, SparesWhere, SweepsWhere, Reclaims, IsRested};

use caller_facts::lock_walks::epoch_slots::{collect, draw, spare, sweep};
use machine_states::structure_laws::Structure;
use machine_states::table_words::ATTEMPT_BLOCKS;
use version_words::{FlockTable, Runner};

/// Up to so many node slots in limbo a quarter of a worker's own ones is many; from then on their number has to double
/// before it is many again.
const FEW: u32 = 64;

/// Whether so many node slots in limbo, of as many as the layout gives each worker, are worth the steps of a scan.
///
/// Where a scan brings nothing back, as behind a runner that stays entered, the next ones wait until twice as many are
/// in limbo: so all scans together look at each of them a few times only, and those that come back at once are few.
#[inline(always)]
fn is_much(given: u32, limbo: u32) -> bool
    ensures { result ≡ is_much given limbo }
{
    if limbo < FEW {
        limbo > 0 && given as u64 <= 4 * limbo as u64
    } else {
        (limbo / 2).is_power_of_two()
    }
}

/// Whether fewer node slots are free than an attempt needs.
#[inline(always)]
fn is_lacking<S: Structure>(runner: &Runner<S>) -> bool
    ensures { result ≡ lacks_slots runner.now }
{
    runner.free_nodes().len() < 2
}

/// Whether so many of the own node slots are in limbo that a scan is worth its steps.
#[inline(always)]
fn is_full<S: Structure>(table: &FlockTable<S>, runner: &Runner<S>) -> bool
    requires { IsOf table.now runner.now }
    ensures { result ≡ has_much_in_limbo runner.now }
{
    is_much(table.layout().nodes, runner.limbo_nodes())
}

/// One scan. It is a call of its own, since an attempt seldom makes one, and would keep registers free for it each
/// time.
#[inline(never)]
fn collect_apart<S: Structure>(table: &FlockTable<S>, runner: Runner<S>) -> Runner<S>
    requires own { IsOf table.now runner }
    requires tidy { IsTidy runner }
    ensures own { IsOf table.now result }
    ensures collects { Collects (S.meaning table.now.structure) runner result }
{
    collect(table, runner)
}

/// One scan where it is due.
#[inline(always)]
fn collect_where<S: Structure>(table: &FlockTable<S>, runner: Runner<S>, due: bool) -> Runner<S>
    requires own { IsOf table.now runner }
    requires tidy { IsTidy runner }
    ensures own { IsOf table.now result }
    ensures collects { CollectsWhere (S.meaning table.now.structure) due runner result }
    ensures rested { IsRested runner result }
{
    if due {
        collect_apart(table, runner)
    } else {
        runner
    }
}

/// What is free above the number that the layout gives each worker goes to the board, where that is due.
#[inline(always)]
fn spare_where<S: Structure>(table: &FlockTable<S>, runner: Runner<S>, due: bool) -> Runner<S>
    requires own { IsOf table.now runner }
    requires tidy { IsTidy runner }
    requires worker { runner.number < runner.layout.runners }
    ensures own { IsOf table.now result }
    ensures spares { SparesWhere (S.meaning table.now.structure) due runner result }
    ensures rested { IsRested runner result }
{
    if due { spare(table, runner) } else { runner }
}

/// One scan where slots lack.
#[inline(always)]
fn refill<S: Structure>(table: &FlockTable<S>, runner: Runner<S>) -> Runner<S>
    requires own { IsOf table.now runner }
    requires tidy { IsTidy runner }
    ensures own { IsOf table.now result }
    ensures collects { CollectsWhere (S.meaning table.now.structure) (lacks_slots runner) runner result }
    ensures rested { IsRested runner result }
{
    let lacking = is_lacking(&runner);
    collect_where(table, runner, lacking)
}

/// Whether no descriptor is free, or fewer blocks than an attempt may want.
#[inline(always)]
fn needs_sweep<S: Structure>(runner: &Runner<S>) -> bool
    ensures { result ≡ needs_sweep runner.now }
{
    runner.free_descriptors().is_empty() || runner.free_blocks().len() < ATTEMPT_BLOCKS
}

/// One sweep where a descriptor lacks, or blocks.
#[inline(always)]
fn sweep_where_lacking<S: Structure>(table: &FlockTable<S>, runner: Runner<S>) -> Runner<S>
    requires own { IsOf table.now runner }
    requires tidy { IsTidy runner }
    ensures own { IsOf table.now result }
    ensures sweeps { SweepsWhere (S.meaning table.now.structure) (needs_sweep runner) runner result }
    ensures rested { IsRested runner result }
{
    if needs_sweep(&runner) {
        sweep(table, runner)
    } else {
        runner
    }
}

/// Where many node slots are in limbo, collects once, and gives to the board those that are free then above the number
/// that the layout gives each worker. Then it collects up to three times in a row, as long as fewer than two node slots
/// are free; sweeps the guard words where no descriptor is free, or fewer blocks than an attempt may want; and takes
/// node slots from the board while fewer than two are free.
///
/// Many is a quarter of those that the layout gives each worker, as long as that is fewer than 64; else it is 64, and
/// again each time that they have doubled.
///
/// Each scan loads all announcements and may take the epoch on, which costs every other runner a cache line; so one is
/// made only where it is needed. Three in a row bring back all that nobody holds: what was retired in the present epoch
/// leaves limbo two epochs on. One sweep brings back each retired descriptor that no guard word names.
///
/// Who retires more slots than it makes gathers those of the others: so what it has above its own number goes to the
/// board, for those that lack some. Slots become free by a scan alone, so the walk over the board is made only behind
/// one: who has more than its number for long, since the board has no room, would make it in each attempt else.
///
/// The runner has to be an idle worker with an empty hand and no guard. There is no refusal, and no memory is taken
/// (Fraser, 2004; Michael, 2004).
pub fn reclaim<S: Structure>(table: &FlockTable<S>, runner: Runner<S>) -> Runner<S>
    requires own { IsOf table.now runner }
    requires tidy { IsTidy runner }
    requires worker { runner.number < runner.layout.runners }
    ensures own { IsOf table.now result }
    ensures reclaims { Reclaims (S.meaning table.now.structure) runner result }
{
    let full = is_full(table, &runner);
    let runner = collect_where(table, runner, full);
    let runner = spare_where(table, runner, full);
    let runner = refill(table, runner);
    let runner = refill(table, runner);
    let runner = sweep_where_lacking(table, refill(table, runner));
    draw(table, runner, 2)
}
