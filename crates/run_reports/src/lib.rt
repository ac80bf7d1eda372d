//! From the words of a closed table to the report on its requests.
//!
//! `entries` reads the entry of each request off its two words, `contents` says what the cells hold, and `printing`
//! ranks the requests that have an entry and writes the report.
#![tactic(auto)]

mod contents;
mod entries;
mod printing;

pub use contents::contents_stand;
pub use entries::entries_of;
pub use printing::{PrintError, print_words};

// Passed on to the layers above, so that they needn't name these libraries themselves.
pub use closed_words;
pub use report_text;
