//! How often each reply came: counts of replies, their printing, and the counts of a closed table.
//!
//! `counts` counts replies, `print` prints the seven lines, `tally` counts what the words of a closed table hold, and
//! `laws` says that requests with keys of their own for each trace are answered as each trace by itself.
#![tactic(auto)]

mod counts;
mod laws;
mod print;
mod tally;

pub use counts::{Counts, count_replies, count_unserved};
pub use laws::{generated_traces_are_apart, traces_apart_are_answered_alone};
pub use print::print_counts;
pub use tally::{Tally, tally_words};

// Passed on to the layers above, so that they needn't name these libraries themselves.
pub use run_reports;
