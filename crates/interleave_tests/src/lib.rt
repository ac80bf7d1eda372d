//! Worked rows and random schedules on the pure machine, over its test structure.
//!
//! `rows` has helpers that make steps, and the rows; `random` has the random schedules, on the
//! machine of `two_workers`, and `plain_runs` the runs in one go that they are compared with. `table_rows` has rows of
//! single steps on the shared table.
//!
//! All of it is read with the tests alone, so that it is proved once.
#![tactic(auto)]

#[cfg(test)]
mod plain_runs;
#[cfg(test)]
mod random;
#[cfg(test)]
mod rows;
#[cfg(test)]
mod table_rows;
#[cfg(test)]
mod two_workers;
