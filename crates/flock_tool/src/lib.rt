//! The program `flock`: reads a trace text, runs its requests on one table with a thread for each runner, and prints
//! the report.
//!
//! `tool` has the top call, whose contract carries the theorem, `report` the command `run`, `generation` the command
//! `gen`, `load` the command `load` and `checking` the command `check`. `plan` reads the text or generates the
//! requests, `run` runs and prints, `ran` is what a run leaves, `status` has the ways in which the program can end
//! without a report and `finish` those in which a run can, each with its number and its line, and `standard` adapts
//! std's readers and writers.
#![tactic(auto)]

mod checking;
mod finish;
mod generation;
mod load;
mod plan;
mod ran;
mod report;
mod run;
mod standard;
mod status;
mod tool;

pub use finish::Finish;
pub use ran::Ran;
pub use standard::{StdSink, StdSource};
pub use tool::flock;

// Passed on to the layers above, so that they needn't name these libraries themselves.
pub use command_line::trace_reader;
pub use hash_table;
pub use key_move;
pub use leaf_tree;
pub use load_counts;
pub use printed_traces::report_text;
pub use sorted_list;
pub use threaded_runs;
