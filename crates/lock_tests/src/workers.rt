//! A table's keeper and its two workers, before and after their work.
ghost use Rattle.std.specs.Prelude.{◌≡◌, ◌+◌, ◌<◌, IfOk};
ghost use Rattle.settled_tables.specs.closed_words.specs.version_words.specs.TableState.{IsOf};
ghost use Rattle.settled_tables.specs.closed_words.specs.version_words.specs.Stages.{IsKeeper, HasJoined};
ghost use Rattle.lock_tests.specs.Workers.{IsNewWorker, IsReady, HasReserve};

use hash_table::lock_walks::version_words::{FlockTable, Runner, Words};
use lock_attempts::attempts::reserve_slots;
use machine_states::structure_laws::Structure;
use std::alloc::{AllocError, Global};

/// The worker, where two node slots, one descriptor and the blocks for two logs are free.
fn with_reserve<S: Structure>(worker: Runner<S>) -> Result<Runner<S>, AllocError>
    ensures same { IfOk result (λ x. x ≡ worker) }
    ensures reserve { IfOk result HasReserve }
{
    match reserve_slots(worker) {
        Ok(worker) => Ok(worker),
        Err(_) => Err(AllocError),
    }
}

/// The keeper, and the next worker, whose number is the given one.
pub fn split<S: Structure>(
    table: &FlockTable<S>,
    alloc: Global,
    keeper: Runner<S>,
    number: u32,
) -> Result<(Runner<S>, Runner<S>), AllocError>
    requires own { IsOf table.now keeper }
    requires keeper { IsKeeper keeper number × HasJoined keeper 0 }
    requires few { number < table.now.layout.runners }
    ensures own { IfOk result (λ x. IsOf table.now x.0 × IsOf table.now x.1) }
    ensures keeper { IfOk result (λ x. IsKeeper x.0 (number + 1) × HasJoined x.0 0) }
    ensures worker { IfOk result (λ x. IsNewWorker number x.1) }
{
    match table.runner(alloc, keeper) {
        Ok(both) => Ok(both),
        Err(_) => Err(AllocError),
    }
}

/// A table with its keeper and its two workers, wherever they stand.
#[derive(Drop)]
pub struct Crew<S: Structure> {
    pub table: FlockTable<S>,
    pub keeper: Runner<S>,
    pub first: Runner<S>,
    pub second: Runner<S>,
    ghost own: { IsOf table keeper × IsOf table first × IsOf table second },
    ghost kept: { IsKeeper keeper 2 × HasJoined keeper 0 },
    ghost numbers: { (first.number ≡ 0) × (second.number ≡ 1) },
    ghost two: { table.layout.runners ≡ 2 },
}

/// The table with its two workers, each of which has two free node slots and a free descriptor.
pub fn make_crew<S: Structure>(
    alloc: Global,
    table: FlockTable<S>,
    keeper: Runner<S>,
) -> Result<Crew<S>, AllocError>
    requires own { IsOf table keeper }
    requires keeper { IsKeeper keeper 0 × HasJoined keeper 0 }
    requires two { table.layout.runners ≡ 2 }
    ensures table { IfOk result (λ crew. crew.table ≡ table) }
    ensures workers { IfOk result (λ crew. IsReady 0 crew.first × IsReady 1 crew.second) }
{
    let (keeper, first) = split(&table, alloc, keeper, 0)?;
    let (keeper, second) = split(&table, alloc, keeper, 1)?;
    let first = with_reserve(first)?;
    let second = with_reserve(second)?;
    Ok(Crew {
        table,
        keeper,
        first,
        second,
    })
}

/// The keeper after it joined this worker, whose number is the given one.
fn join<S: Structure>(
    table: &FlockTable<S>,
    keeper: Runner<S>,
    worker: Runner<S>,
    number: u32,
) -> Runner<S>
    requires own { IsOf table.now keeper × IsOf table.now worker }
    requires keeper { IsKeeper keeper table.now.layout.runners × HasJoined keeper number }
    requires number { worker.number ≡ number }
    requires few { number < table.now.layout.runners }
    ensures own { IsOf table.now result }
    ensures keeper { IsKeeper result table.now.layout.runners × HasJoined result (number + 1) }
{
    table.join_runner(keeper, worker)
}

impl<S: Structure> Crew<S> {
    /// The words after both workers were joined, wherever they stand.
    pub fn gather(self) -> Words<S>
        ensures structure { result.structure ≡ self.table.structure }
        ensures requests { result.requests ≡ self.table.requests }
        ensures layout { result.layout ≡ self.table.layout }
    {
        let Crew {
            table,
            keeper,
            first,
            second,
        } = self;
        let keeper = join(&table, keeper, first, 0);
        let keeper = join(&table, keeper, second, 1);
        table.close(keeper)
    }
}

/// The words after the only worker was joined, wherever it stands.
pub fn gather_one<S: Structure>(
    table: FlockTable<S>,
    keeper: Runner<S>,
    worker: Runner<S>,
) -> Words<S>
    requires own { IsOf table keeper × IsOf table worker }
    requires keeper { IsKeeper keeper 1 × HasJoined keeper 0 }
    requires number { worker.number ≡ 0 }
    requires one { table.layout.runners ≡ 1 }
    ensures structure { result.structure ≡ table.structure }
    ensures requests { result.requests ≡ table.requests }
    ensures layout { result.layout ≡ table.layout }
{
    let keeper = join(&table, keeper, worker, 0);
    table.close(keeper)
}
