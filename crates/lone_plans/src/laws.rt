//! The law of this crate, on a contract.
ghost use Rattle.lone_plans.specs.Lone.{LonePlansMeetNobody};

use lock_walks::Planner;

/// With one worker, over every structure on which requests are planned: a plan is refused by nothing but a word with
/// too few versions left. For while the worker has published nothing since it entered, no lock is held; and what its
/// walk has read stands, so the walk meets no mark of 1 and isn't too far.
pub fn lone_plans_meet_nobody<S: Planner>(structure: &S)
    ensures { LonePlansMeetNobody S (S.meaning structure.now) (S.planning structure.now) }
{
    let _ = structure;
}
