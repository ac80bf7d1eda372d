//! What is left behind by workers that stopped is brought to its end.
//!
//! `settles` goes over the locks of a table whose workers have all been joined and runs each section that one names
//! (Ben-David, Blelloch, Wei, *Lock-free locks revisited*, 2022). `specs/Settled` says what is true then, in every
//! state that the keeper's record allows.
#![tactic(auto)]

mod settles;

pub use settles::settle;

// Passed on to the layers above, so that they needn't name these libraries themselves.
pub use try_lock::section_runs::runner_gate;
