//! Two workers on a table of the test structure, and their offers.
ghost use Rattle.std.specs.Prelude.{◌≡◌, ◌<◌, IfOk};
ghost use Rattle.machine_states.specs.structure_laws.specs.Tray.{tray};
ghost use Rattle.hash_table.specs.try_lock.specs.epoch_slots.specs.Collects.{IsTidy};
ghost use Rattle.hash_table.specs.try_lock.specs.epoch_slots.specs.Entries.{HasLeave};
ghost use Rattle.settled_tables.specs.closed_words.specs.version_words.specs.TableState.{IsOf};
ghost use Rattle.settled_tables.specs.closed_words.specs.version_words.specs.Stages.{IsKeeper, HasJoined};
ghost use Rattle.lock_tests.specs.Scenes.{IsScene};
ghost use Rattle.lock_tests.specs.Workers.{HasRead, IsEmptyHanded, IsReady, MayRun};
ghost use Rattle.lock_tests.specs.declared.offers.Offer.TheVariants.{Published};
ghost use Rattle.hash_table.specs.try_lock.specs.declared.section.Section.{Section};

use crate::offers::Offer;
use crate::workers::{Crew, make_crew};
use hash_table::lock_walks::epoch_slots::{enter, exit};
use hash_table::lock_walks::try_lock::publish;
use hash_table::lock_walks::version_words::{FlockTable, Runner};
use interleave_core::Tray;
use machine_states::body_terms::{Thunk, Word};
use machine_states::map_history::{Op, Request};
use machine_states::table_words::Layout;
use std::alloc::{AllocError, Global};

/// A table with two node slots and one descriptor for each of two workers, and one request for each.
fn new_table(alloc: Global) -> Result<(FlockTable<Tray>, Runner<Tray>), AllocError>
    ensures own { IfOk result (λ x. IsOf x.0 x.1) }
    ensures keeper { IfOk result (λ x. IsKeeper x.1 0 × HasJoined x.1 0) }
    ensures scene { IfOk result (λ x. IsScene x.0) }
{
    let layout = Layout {
        runners: 2,
        nodes: 2,
        sections: 1,
        version_max: 4294967295,
    };
    let requests = [
        Request {
            trace: 0,
            number: 0,
            op: Op::Get(1),
        },
        Request {
            trace: 1,
            number: 1,
            op: Op::Get(1),
        },
    ];
    let (table, keeper) = FlockTable::new(alloc, Tray, layout, &requests)?;
    Ok((table, keeper))
}

/// Such a table with its workers.
pub fn new_crew(alloc: Global) -> Result<Crew<Tray>, AllocError>
    ensures scene { IfOk result (λ crew. IsScene crew.table) }
    ensures workers { IfOk result (λ crew. IsReady 0 crew.first × IsReady 1 crew.second) }
{
    let (table, keeper) = new_table(alloc)?;
    make_crew(alloc, table, keeper)
}

/// Enters. The worker may leave again.
pub fn come_in(table: &FlockTable<Tray>, runner: Runner<Tray>) -> Runner<Tray>
    requires own { IsOf table.now runner }
    requires tidy { IsTidy runner }
    ensures own { IsOf table.now result }
    ensures leave { HasLeave result }
    ensures hand { IsEmptyHanded result }
    ensures number { result.number ≡ runner.number }
{
    enter(table, runner)
}

/// Enters and leaves. The answer is the epoch of the entry.
pub fn visit(table: &FlockTable<Tray>, runner: Runner<Tray>) -> (Runner<Tray>, Option<u64>)
    requires own { IsOf table.now runner }
    requires tidy { IsTidy runner }
    ensures own { IsOf table.now result.0 }
    ensures tidy { IsTidy result.0 }
    ensures number { result.0.number ≡ runner.number }
{
    let runner = come_in(table, runner);
    let epoch = runner.entered();
    (exit(table, runner), epoch)
}

/// Offers the worker's request, with a section of this form and this operand, where the word of the lock that it has
/// read is free and isn't spent.
pub fn offer(
    table: &FlockTable<Tray>,
    runner: Runner<Tray>,
    word: Word,
    form: u64,
    operand: u64,
) -> (Runner<Tray>, Offer)
    requires own { IsOf table.now runner }
    requires scene { IsScene table.now }
    requires worker { runner.number < 2 }
    requires read { HasRead tray 0 word runner }
    ensures own { IsOf table.now result.0 }
    ensures number { result.0.number ≡ runner.number }
    ensures published { (section : Section) → result.1 ≡ Published section → MayRun tray section result.0 }
{
    if word.value() != 0 || word.version() > table.layout().version_max - 2 {
        return (runner, Offer::None);
    }
    let thunk = Thunk {
        form,
        request: runner.number(),
        lock: 0,
        word,
        operands: [operand, 0, 0, 0, 0, 0, 0, 0],
    };
    let (runner, answer) = publish(table, runner, &thunk);
    match answer {
        Ok(section) => (runner, Offer::Published(section)),
        Err(refused) => (runner, Offer::Refused(refused)),
    }
}
