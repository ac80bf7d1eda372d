//! The end of a run: the workers are joined, and the table is settled and closed.
ghost use Rattle.std.specs.Prelude.{◌≡◌, IfOk, vec_len};
ghost use Rattle.closed_words.specs.version_words.specs.TableState.{IsOf};
ghost use Rattle.closed_words.specs.Histories.{HoldsNoLock};
ghost use Rattle.settling.specs.Settled.{MaySettle};
ghost use Rattle.settled_tables.specs.Keeper.{IsIdleKeeper};
ghost use Rattle.settled_tables.specs.Once.{SectionsCameOnce};
ghost use Rattle.settled_tables.specs.Seats.{AreBack, AreReports};

use crate::workers::join_workers;
use closed_words::version_words::{FlockTable, Runner, Words};
use machine_states::structure_laws::Structure;
use settling::settle;
use std::alloc::{AllocError, Global};

/// Settles a table whose workers have all been joined, wherever they stand, and closes it: no lock of its words is
/// held.
///
/// So whatever the workers did and wherever they were stopped, the cells are those that the structure says of a memory
/// in which nothing is pending (`AreSettled` of `closed_words`); and each section that was published happened once, for
/// good, or not at all. The keeper has joined each worker, is idle, and has all its own node slots and blocks free. There
/// is no refusal, no memory is taken, and nothing waits.
pub fn settle_and_close<S: Structure>(table: FlockTable<S>, keeper: Runner<S>) -> Words<S>
    requires own { IsOf table keeper }
    requires next { MaySettle table keeper }
    ensures structure { result.structure ≡ table.structure }
    ensures layout { result.layout ≡ table.layout }
    ensures requests { result.requests ≡ table.requests }
    ensures free { HoldsNoLock (S.meaning result.structure) result }
    ensures once { SectionsCameOnce (S.meaning result.structure) result }
{
    let keeper = settle(&table, keeper);
    table.close(keeper)
}

/// Joins all workers of a table, settles it and closes it: gives the words, with what the workers report, in order of
/// number.
///
/// The workers may stand wherever a gate stopped them. No lock of the words is held, so the cells are those that the
/// structure says of a memory in which nothing is pending (`AreSettled` of `closed_words`); and each section that was
/// published happened once, for good, or not at all. The Err is want of memory.
pub fn close_table<S: Structure, A: Drop>(
    alloc: Global,
    table: FlockTable<S>,
    keeper: Runner<S>,
    workers: Vec<(Runner<S>, A)>,
) -> Result<(Words<S>, Vec<A>), AllocError>
    requires own { IsOf table keeper }
    requires keeper { IsIdleKeeper (S.meaning table.structure) (vec_len workers) 0 keeper }
    requires back { AreBack table workers.items }
    requires each { vec_len workers ≡ table.layout.runners }
    ensures structure { IfOk result (λ x. x.0.structure ≡ table.structure) }
    ensures layout { IfOk result (λ x. x.0.layout ≡ table.layout) }
    ensures requests { IfOk result (λ x. x.0.requests ≡ table.requests) }
    ensures free { IfOk result (λ x. HoldsNoLock (S.meaning x.0.structure) x.0) }
    ensures once { IfOk result (λ x. SectionsCameOnce (S.meaning x.0.structure) x.0) }
    ensures len { IfOk result (λ x. vec_len x.1 ≡ vec_len workers) }
    ensures reports { IfOk result (λ x. AreReports workers.items x.1.items) }
{
    let (keeper, reports) = join_workers(&table, alloc, keeper, workers)?;
    Ok((settle_and_close(table, keeper), reports))
}
