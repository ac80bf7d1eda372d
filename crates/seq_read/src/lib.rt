//! Reads without a lock: a request whose body changes nothing is served by loads between two equal readings of its
//! lock.
//!
//! `reading` has the call `read`, and its plan; `cells` loads the cells of the planned body, `wants` tests them, and
//! `confirming` has what comes behind them: the announcement, the clock, the lock once more, and the request's two
//! words. `view` is the body as a read has it, and `bodies` looks at it; `answers` is what a read may come to, and
//! `refusals` how refusals are told as such answers.
#![tactic(auto)]

mod answers;
mod bodies;
mod cells;
mod confirming;
mod reading;
mod refusals;
mod view;
mod wants;

pub use answers::Read;
pub use reading::read;

// Passed on to the layers above, so that they needn't name these libraries themselves.
pub use caller_facts::{lock_walks, runner_gate};
