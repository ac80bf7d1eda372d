//! Steps of one kind on the shared table, so many rounds, or a few of each kind.
//!
//! `kinds` has the kinds of step and their names; `rounds` makes them.

mod kinds;
mod rounds;

use anyhow::bail;
use kinds::{KINDS, Kind};
use rounds::make_rounds;
use std::io::Print;

/// How many rounds of each kind are made where none is named.
const FEW: u32 = 4;

/// Makes the rounds on a table of their own, and prints how many, with their sum.
fn make(rt: &HostRuntime, kind: Kind, rounds: u32) -> anyhow::Result<()> {
    let sum = make_rounds(rt.alloc(), kind, rounds)?;
    let (name, steps) = (kind.name(), kind.steps());
    println!(rt; "{name}: {rounds} rounds of {steps} steps, sum {sum}")?;
    Ok(())
}

/// A few rounds of each kind.
pub fn make_few(rt: &HostRuntime) -> anyhow::Result<()> {
    for kind in KINDS {
        make(rt, kind, FEW)?;
    }
    Ok(())
}

/// So many rounds of the kind of this name.
pub fn make_named(rt: &HostRuntime, name: &str, rounds: &str) -> anyhow::Result<()> {
    match Kind::named(name) {
        Some(kind) => make(rt, kind, rounds.parse()?),
        None => bail!("no kind of step has this name"),
    }
}
