//! A finished report held against the text on which it is one: it is legal, or it has a first line that fails.
//!
//! `input` reads a whole input, `parts` parts a text from the report on it. `line` reads one line of a report, `form`
//! all of them, `ranks` looks for a rank that is wrong and puts the served requests in order, `replay` holds their
//! replies against a plain map, and `check` makes these tests in order. `whole` does all of it with an input, and
//! `verdict` has what is answered.
#![tactic(auto)]

mod check;
mod form;
mod input;
mod line;
mod parts;
mod ranks;
mod replay;
mod verdict;
mod whole;

pub use check::check_report;
pub use input::{InputError, MAX_INPUT, read_all};
pub use parts::split_report;
pub use verdict::{BadReport, Verdict};
pub use whole::{CheckError, check_input};
