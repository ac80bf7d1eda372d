//! One attempt of a request: from a plan over the section under its lock to the answer.
//!
//! `attempting` has the call `attempt`, and its plan; `tries` publishes the planned section, `runs` runs and retires
//! it. `answers` is what an attempt may come to, `refusals` how refusals of a plan, a publication and a section are
//! told as such answers, `turns` how a runner leaves with one, `reclaims` collects where that is due, `reserves` has
//! the own slots that an attempt needs, and `learns` how a request that the runner knows is answered by its words.
#![tactic(auto)]

mod answers;
mod attempting;
mod learns;
mod reclaims;
mod refusals;
mod reserves;
mod runs;
mod tries;
mod turns;

pub use answers::Attempt;
pub use attempting::{attempt, plan_and_try};
pub use learns::learn;
pub use reclaims::reclaim;
pub use refusals::{lock_refused, plan_refused, section_left};
pub use reserves::reserve_slots;
pub use runs::{conclude, run_own};
pub use tries::try_section;
pub use turns::turn_away;

// Passed on to the layers above, so that they needn't name these libraries themselves.
pub use caller_facts::lock_walks::epoch_slots;
pub use caller_facts::{goes_on, lock_walks};
pub use lock_words;
