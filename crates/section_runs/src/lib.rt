//! One run of a section, from the load of its thunk to the release of its locks.
//!
//! Whoever runs a section goes by the same line of atomic steps: the thunk's words are loaded, the body's steps are
//! made one after the other, by the calls of `idem_cell`, `idem_alloc` and `nested_lock`, and at the end the section is
//! marked as done and its locks are released (Ben-David, Blelloch, Wei, *Lock-free locks revisited*, 2022). `opens` is
//! the opening, `steps` has a call for each kind of step, `registers` and `values` what is kept of the registers;
//! `bodies` goes through the steps, `sums` adds up what was counted apart, `ends` is the end, and `runs` the whole.
#![tactic(auto)]

mod bodies;
mod ends;
mod opens;
mod passed;
mod registers;
mod runs;
mod steps;
mod sums;
mod values;

pub use bodies::walk;
pub use ends::end;
pub use opens::open;
pub use passed::{Passed, Walked};
pub use registers::Places;
pub use runs::{RunEnd, run};

// Passed on to the layers above, so that they needn't name these libraries themselves.
pub use idem_alloc::commit_log;
pub use idem_cell::runner_gate;
pub use nested_lock;
