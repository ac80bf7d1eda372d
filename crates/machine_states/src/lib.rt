//! The states of the pure machine, which its crate and what is proved of it speak of.
//!
//! The definitions stand in specs: `World` is a state and what an event makes of it, `First` the first
//! state, and `Schedules` the states after lists of events. `words` makes the first state's words.
#![tactic(auto)]

mod words;

pub use words::first_words;

// Passed on to the layers above, so that they needn't name these libraries themselves.
pub use runner_steps;
pub use runner_steps::runner_parts::{epoch_core, guard_core, structure_laws};
pub use runner_steps::{body_terms, map_history, runner_parts, table_words};
