//! The law of this crate, on a contract.
ghost use Rattle.lone_reads.specs.Lone.{LoneReadsAreServed};

use seq_read::lock_walks::Planner;

/// With one worker, over every structure on which requests are planned: a read is refused by nothing but a word with
/// too few versions left, or by its body. So a read of a `get`, where the structure serves the map, comes to `Done` or
/// `Spent`, unless its gate halts it. For no lock is held while the worker reads; what its walk has read stands, so
/// the walk meets no mark of 1 and isn't too far, the cells hold what the body wants, and the lock has its word again
/// behind the load of the clock.
pub fn lone_reads_are_served<S: Planner>(structure: &S)
    ensures { LoneReadsAreServed S (S.meaning structure.now) (S.planning structure.now) }
{
    let _ = structure;
}
