//! The program: what the shared table's steps, sections and attempts cost, each measured by a script from outside.
//!
//! `steps` makes steps of one kind, `sections` serves requests by whole sections of the test structure, and
//! `attempt_rounds` serves requests of one kind by attempts on the hash table or the tree. It is one program, since a
//! program is built with all that it uses, which takes longer than most of its own code.
#![tactic(auto)]

mod attempt_rounds;
mod sections;
mod steps;

use anyhow::bail;
use std::env;

fn main(rt: HostRuntime) -> anyhow::Result<()> {
    let args: Vec<String> = env::args(&rt)?.skip(1).collect(rt.alloc())?;
    let words: Vec<&str> = args.iter().map(|arg| arg.as_str()).collect(rt.alloc())?;
    match *words {
        [] => {
            steps::make_few(&rt)?;
            sections::make_few(&rt)?;
            attempt_rounds::serve_few(&rt, rt.alloc())
        }
        ["steps", kind, rounds] => steps::make_named(&rt, kind, rounds),
        ["sections", each, tables] => sections::make_named(&rt, each, tables),
        ["attempts", table, kind, count, served] => {
            attempt_rounds::serve_named(&rt, rt.alloc(), table, kind, count, served)
        }
        _ => bail!("no word, or `steps`, `sections` or `attempts` with their words"),
    }
}
