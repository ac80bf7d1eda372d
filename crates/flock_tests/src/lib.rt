//! Worked rows of the whole program, as tests: `flock` of `flock_tool` over streams in memory, on the hash table, on
//! the search tree and on the sorted list.
//!
//! `program` runs the program on a text, and `legal` is a check of reports that knows nothing of it. `rows` has tables
//! of commands with what they print and tell, `streams` texts in pieces, and reads and writes that fail, `scripts`
//! several runners, `stops` runners that are stopped at an ask, `stamps` the stamps of one runner's requests, and
//! `counts` the printed counts of replies.
#![tactic(auto)]

#[cfg(test)]
mod counts;
#[cfg(test)]
mod legal;
#[cfg(test)]
mod program;
#[cfg(test)]
mod rows;
#[cfg(test)]
mod scripts;
#[cfg(test)]
mod stamps;
#[cfg(test)]
mod stops;
#[cfg(test)]
mod streams;
