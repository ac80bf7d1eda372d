//! The machine's words, shared by threads.
//!
//! `table` has the table and its private steps, `seats` how runners are made and joined and how a table begins and
//! ends, `entry`, `scan`, `guards` and `board` step calls, `log_words` where a run's log goes on, `runner` a seat with
//! what its thread keeps (`kept`), and `words` what is left of a closed table. `rule` is what holds between any two
//! steps, `view` what a seat knows, `plays` what a step tells it, and `laws` what the types say, as contracts.
#![tactic(auto)]

mod bases;
mod board;
mod entry;
mod guards;
mod hold;
mod laws;
mod log_words;
mod makes;
mod opening;
mod plays;
mod private;
mod reads;
mod rule;
mod run_ends;
mod runner;
mod runs;
mod scan;
mod seats;
mod table;
mod view;
mod words;

pub use laws::{table_is_allowed, words_are_reached};
pub use machine_states::runner_steps::held_word;
pub use runner::Runner;
pub use runner_block::RunRoom;
pub use table::FlockTable;
pub use words::Words;

// Passed on to the layers above, so that they needn't name these libraries themselves.
pub use machine_invariant;
