//! One runner serves the first so many requests of a new table by attempts, all of one kind behind those that fill it.
//!
//! `tables` has the structures and `kinds` the kinds with their names, `requests` the list of what is asked, `scenes` a
//! table with one worker, and `rounds` serves. A script measures it with few of a table's requests served and with all
//! of them.

ghost use Rattle.std.specs.Prelude.{IfOk};
ghost use Rattle.speed.specs.Rounds.{IsRound};

mod kinds;
mod requests;
mod rounds;
mod scenes;
mod tables;

use anyhow::bail;
use kinds::{KINDS, Kind};
use requests::MOST;
use rounds::{Round, Tally, serve_round};
use std::alloc::Global;
use std::io::Print;
use std::sync::Wait;
use std::thread::Threads;
use tables::{TABLES, TableKind};

/// The round of these words: a table, a kind of request, how many requests there are, and how many of them are served.
fn round_of(table: &str, kind: &str, count: &str, served: &str) -> anyhow::Result<Round>
    ensures { IfOk result IsRound }
{
    let (Some(table), Some(kind)) = (TableKind::named(table), Kind::named(kind)) else {
        bail!("no table or no kind of request has this name");
    };
    let (count, served) = (count.parse()?, served.parse()?);
    if count > MOST || served > count {
        bail!("a table has at most 131,072 requests, and no more than these are served");
    }
    Ok(Round {
        table,
        kind,
        count,
        served,
    })
}

/// Prints how many requests were answered, with the sum of their reply words.
fn tell(rt: &impl Print, round: Round, tally: Tally) -> anyhow::Result<()> {
    let (table, kind, count) = (round.table.name(), round.kind.name(), round.count);
    let (answered, sum) = (tally.answered, tally.sum);
    println!(rt; "{table}, {kind}: {answered} of {count} requests served, sum {sum}")?;
    Ok(())
}

/// Serves this round, and prints what came of it.
fn serve<R: Threads + Wait + Sync + Print>(
    rt: &R,
    alloc: Global,
    round: Round,
) -> anyhow::Result<()>
    requires { IsRound round }
{
    tell(rt, round, serve_round(rt, alloc, round)?)
}

/// A round of each kind on either table.
pub fn serve_few<R: Threads + Wait + Sync + Print>(rt: &R, alloc: Global) -> anyhow::Result<()> {
    for table in TABLES {
        for kind in KINDS {
            let round = Round {
                table,
                kind,
                count: 1_200,
                served: 1_100,
            };
            serve(rt, alloc, round)?;
        }
    }
    Ok(())
}

/// The round of these words.
pub fn serve_named<R: Threads + Wait + Sync + Print>(
    rt: &R,
    alloc: Global,
    table: &str,
    kind: &str,
    count: &str,
    served: &str,
) -> anyhow::Result<()> {
    serve(rt, alloc, round_of(table, kind, count, served)?)
}
