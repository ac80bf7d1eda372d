//! The beginning and the end of a run: the workers of a new table, and the words once what stopped workers left is
//! helped to its end.
#![tactic(auto)]

mod closing;
mod workers;

pub use closing::{close_table, settle_and_close};
pub use workers::{join_workers, open_table};

// Passed on to the layers above, so that they needn't name these libraries themselves.
pub use closed_words;
pub use settling;
