//! Tests of single crates: worked rows of what no contract says, each public call once on its happy path.
//!
//! They stand here, since a crate with tests of its own is proved twice. Most are tables of texts: the call is made on
//! each, and what it gives is shown as a text (`rows`), so that each function that is proved is a small one.
#![tactic(auto)]

#[cfg(test)]
mod bodies;
#[cfg(test)]
mod checks;
#[cfg(test)]
mod command_lines;
#[cfg(test)]
mod gates;
#[cfg(test)]
mod logs;
#[cfg(test)]
mod maps;
#[cfg(test)]
mod plain_runs;
#[cfg(test)]
mod reports;
#[cfg(test)]
mod rows;
#[cfg(test)]
mod traces;
