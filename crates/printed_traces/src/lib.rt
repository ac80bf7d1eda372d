//! Requests printed as a trace text.
//!
//! `text` prints the lines of requests by traces, by `line`, and `print` the text of generated requests into a sink.
#![tactic(auto)]

mod line;
mod print;
mod text;

pub use print::{PrintStop, print_generated};
pub use text::trace_text;

// Passed on to the layers above, so that they needn't name these libraries themselves.
pub use report_text;
