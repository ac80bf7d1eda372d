//! What is said of a runner over a call that serves a request: what it knows, what it may ask, and how often its gate
//! was asked.
//!
//! `asks` is the ask of a gate where no step is made.
#![tactic(auto)]

mod asks;

pub use asks::goes_on;

// Passed on to the layers above, so that they needn't name these libraries themselves.
pub use lock_walks;
pub use lock_walks::try_lock;
pub use runner_gate;
