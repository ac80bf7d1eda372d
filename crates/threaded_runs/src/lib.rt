//! A run of traces on a shared table: one thread for each worker, and the words at the end.
//!
//! `owned` is which requests a worker serves, `seating` how the workers and their gates are made and come back,
//! `running` how they run in threads, and `table_run` the whole run.
#![tactic(auto)]

mod job;
mod owned;
mod running;
mod seating;
mod table_run;

pub use table_run::run_table;

// Passed on to the layers above, so that they needn't name these libraries themselves.
pub use free_serving::serving;
pub use settled_tables::closed_words;
pub use settled_tables::settling::runner_gate;
