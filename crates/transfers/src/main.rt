//! The program: workers move money between accounts, and one of them stops for good between its two stores.
//!
//! `stops` has the gate that stops it, `works` what a worker does, and `runs` the whole run.
#![tactic(auto)]

mod runs;
mod stops;
mod works;

use runs::{Summary, run};
use std::io::{Print, Result};

/// Prints the transfers that each worker made, the balances and their sum.
fn tell(rt: &HostRuntime, summary: &Summary) -> Result<()> {
    for (worker, report) in summary.reports.iter().enumerate() {
        let made = report.made;
        let end = if report.stopped {
            ", then it stopped between its two stores"
        } else {
            ""
        };
        println!(rt; "worker {worker}: {made} transfers{end}")?;
    }
    let mut sum: u64 = 0;
    for (account, &balance) in summary.balances.iter().enumerate() {
        println!(rt; "account {account}: {balance}")?;
        sum = sum.saturating_add(u64::from(balance));
    }
    println!(rt; "sum: {sum}")
}

fn main(rt: HostRuntime) -> Result<()> {
    let summary = run(&rt, rt.alloc())?;
    tell(&rt, &summary)
}
