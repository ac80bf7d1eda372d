//! The direct table on real threads, as tests: a worker that stops inside its section, two that contend, and requests
//! in turn.
//!
//! `gates` has gates that follow a script and stop at a planned ask, `runs` the run of a list of requests on a new
//! table, with the pairs at the end, `texts` the run of a text, and `rows` the tests.
//!
//! All of it is read with the tests alone, so that it is proved once.
#![tactic(auto)]

#[cfg(test)]
mod gates;
#[cfg(test)]
mod rows;
#[cfg(test)]
mod runs;
#[cfg(test)]
mod texts;
