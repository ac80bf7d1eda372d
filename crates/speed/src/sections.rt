//! Whole sections on the shared table of the test structure, so many on each of so many tables.
//!
//! `scenes` is the table, `requests` a request's section from the entry of its worker to the end, and `rounds` makes
//! them.

mod requests;
mod rounds;
mod scenes;

use rounds::make_rounds;
use std::io::Print;

/// Serves so many requests on each of so many tables, and prints how many, with the sum of the replies.
fn make(rt: &HostRuntime, each: u32, tables: u32) -> anyhow::Result<()> {
    let sum = make_rounds(rt.alloc(), each, tables)?;
    println!(rt; "{tables} tables with {each} sections, sum {sum}")?;
    Ok(())
}

/// Two tables with all of their requests.
pub fn make_few(rt: &HostRuntime) -> anyhow::Result<()> {
    make(rt, 8, 2)
}

/// So many sections on each of so many tables.
pub fn make_named(rt: &HostRuntime, each: &str, tables: &str) -> anyhow::Result<()> {
    make(rt, each.parse()?, tables.parse()?)
}
