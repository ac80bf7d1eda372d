//! Steps of runners in no run over the shared table of the test structure.
//!
//! `walks` has the steps of an entry, a scan, a join and the private steps, each in the order in which a runner makes
//! them.
#![tactic(auto)]

mod walks;

pub use walks::{
    collect, crew, enter, entry, exit, fetch, fetch_word, gather, look, new_table, put, slot_of,
};

// Passed on to the layers above, so that they needn't name these libraries themselves.
pub use interleave_core;
pub use version_words;
