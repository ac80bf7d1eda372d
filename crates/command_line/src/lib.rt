//! The words of the command line: which are accepted, and what they mean.
//!
//! `parser` is the command line as clap reads it, `number` reads numbers and `halts` the halts that are named,
//! `options` is what `run` is given, `generated` what `gen` and `load` are, and `command` reads a whole command line.
#![tactic(auto)]

mod command;
mod generated;
mod halts;
mod number;
mod options;
mod parser;

pub use command::{Command, read_words, words_mean_one_command};
pub use generated::LoadOptions;
pub use halts::{Halt, Halts};
pub use options::{Reads, RunOptions, TableKind};

// Passed on to the layers above, so that they needn't name these libraries themselves.
pub use trace_reader;
