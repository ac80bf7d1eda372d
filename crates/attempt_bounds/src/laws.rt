//! The law of this crate, on a contract.
ghost use Rattle.attempt_bounds.specs.Lone.{LoneAttemptsAreServed};

use attempts::lock_walks::Planner;

/// With one worker, over every structure on which requests are planned: an attempt is refused by nothing but a
/// word with too few versions left. So what it comes to is `Done`, `Short` or `Spent`, unless its gate halts it. For
/// no lock is held while the worker plans; what its walk has read stands, so the walk meets no mark of 1 and isn't
/// too far; the exchange that publishes finds the word that the walk read; and the section finds what it wants.
pub fn lone_attempts_are_served<S: Planner>(structure: &S)
    ensures { LoneAttemptsAreServed S (S.meaning structure.now) (S.planning structure.now) }
{
    let _ = structure;
}
