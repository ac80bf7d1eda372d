//! The locks of a table whose workers have stopped are released.
ghost use Rattle.std.specs.Prelude.{◌≡◌, ℕ, ◌+◌, ◌-◌, ◌<◌, true, length};
ghost use Rattle.machine_states.specs.table_words.specs.Limits.{IsWithinLimits};
ghost use Rattle.machine_states.specs.body_terms.specs.Word.{value_of};
ghost use Rattle.try_lock.specs.commit_log.specs.version_words.specs.TableState.{IsOf};
ghost use Rattle.try_lock.specs.Reached.{MayHelp};
ghost use Rattle.settling.specs.Settled.{MaySettle, Settles};
ghost use Rattle.settling.specs.Clearing.{cell_count, KeepsJoins, IsClearing, HasMet, HasRun};

use keeper_facts::what_the_keeper_saw_tells;
use machine_states::body_terms::{Place, Steps, Word};
use machine_states::structure_laws::Structure;
use try_lock::commit_log::version_words::{FlockTable, Runner};
use try_lock::epoch_slots::{enter, exit};
use try_lock::section_runs::runner_gate::Free;
use try_lock::{help, watch};

/// How many cells the table has.
fn cells<S: Structure>(table: &FlockTable<S>) -> u32
    requires { IsWithinLimits table.now.layout }
    ensures { result ≡ cell_count (S.meaning table.now.structure) table.now.layout }
{
    table.structure().fixed_cells() + 5 * table.node_slots()
}

/// Runs the section that this word of a lock names to its end. No gate halts the keeper.
fn run_named<S: Structure>(table: &FlockTable<S>, keeper: Runner<S>, held: Word) -> Runner<S>
    requires own { IsOf table.now keeper }
    requires next { MayHelp (S.meaning table.now.structure) keeper held }
    ensures own { IsOf table.now result }
    ensures ran { HasRun (S.meaning table.now.structure) (value_of held - 1) keeper result }
{
    let mut gate = Free::new();
    let mut steps: Steps<()> = Steps::new();
    let (keeper, end) = help(table, keeper, held, &mut gate, &mut steps);
    drop(end);
    keeper
}

/// Watches this lock, which named a section as it was loaded, runs that section if the lock has the word still, and
/// lets the own guard go. All workers are joined, so it has; and a lock that had another word by now would name no
/// section.
fn clear_named<S: Structure>(
    table: &FlockTable<S>,
    keeper: Runner<S>,
    place: Place,
    held: Word,
) -> Runner<S>
    requires own { IsOf table.now keeper }
    requires lock { (S.meaning table.now.structure).is_lock place ≡ true }
    requires within { place < cell_count (S.meaning table.now.structure) table.now.layout }
    requires next { (begun : ℕ) × HasMet (S.meaning table.now.structure) begun place held keeper }
    ensures own { IsOf table.now result }
    ensures cleared { (begun : ℕ) → HasMet (S.meaning table.now.structure) begun place held keeper
        → IsClearing (S.meaning table.now.structure) begun (place + 1) result }
    ensures keeps { KeepsJoins keeper result }
{
    what_the_keeper_saw_tells(table.structure());
    let (keeper, stands) = watch(table, keeper, place, held);
    if stands {
        let keeper = run_named(table, keeper, held);
        table.guard(keeper, None)
    } else {
        table.guard(keeper, None)
    }
}

/// Loads this lock, and runs the section that it names, if it names one.
fn clear_lock<S: Structure>(table: &FlockTable<S>, keeper: Runner<S>, place: Place) -> Runner<S>
    requires own { IsOf table.now keeper }
    requires lock { (S.meaning table.now.structure).is_lock place ≡ true }
    requires within { place < cell_count (S.meaning table.now.structure) table.now.layout }
    requires next { (begun : ℕ) × IsClearing (S.meaning table.now.structure) begun place keeper }
    ensures own { IsOf table.now result }
    ensures cleared { (begun : ℕ) → IsClearing (S.meaning table.now.structure) begun place keeper
        → IsClearing (S.meaning table.now.structure) begun (place + 1) result }
    ensures keeps { KeepsJoins keeper result }
{
    let (keeper, word) = table.load_cell(keeper, place);
    if word.value() == 0 {
        keeper
    } else {
        clear_named(table, keeper, place, word)
    }
}

/// Goes over all locks of the table, in order of place.
fn clear_locks<S: Structure>(table: &FlockTable<S>, keeper: Runner<S>) -> Runner<S>
    requires own { IsOf table.now keeper }
    requires next { IsClearing (S.meaning table.now.structure) (length keeper.part.records.finished) 0 keeper }
    ensures own { IsOf table.now result }
    ensures cleared { IsClearing (S.meaning table.now.structure) (length keeper.part.records.finished)
        (cell_count (S.meaning table.now.structure) table.now.layout) result }
    ensures keeps { KeepsJoins keeper result }
{
    let mut keeper = keeper;
    for place in 0..cells(table) {
        if table.structure().is_lock(place) {
            keeper = clear_lock(table, keeper, place);
        }
    }
    keeper
}

/// Settles a table whose workers have all been joined: enters, loads every lock, runs each section that one names to
/// its end, and leaves.
///
/// The keeper has joined each worker, is idle, and has all its own node slots and blocks free. Its two node slots for
/// each worker and two more are enough, and so are its blocks for one log of each, since each worker left at most one
/// section; so it makes at most as many runs as there are workers. There is no refusal, no memory is taken, and nothing
/// waits.
///
/// At return no lock names a section, and each request that has a stamp has its reply: in every state that the machine
/// reaches in which the keeper has the part that it has then, so also in the words that `FlockTable::close` gives for
/// this keeper. It still has joined whom it had joined, and knows what it knew (Ben-David, Blelloch, Wei, *Lock-free
/// locks revisited*, 2022).
pub fn settle<S: Structure>(table: &FlockTable<S>, keeper: Runner<S>) -> Runner<S>
    requires own { IsOf table.now keeper }
    requires next { MaySettle table.now keeper }
    ensures own { IsOf table.now result }
    ensures settles { Settles (S.meaning table.now.structure) keeper result }
{
    what_the_keeper_saw_tells(table.structure());
    let keeper = enter(table, keeper);
    let keeper = clear_locks(table, keeper);
    exit(table, keeper)
}
