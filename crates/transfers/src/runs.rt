//! The whole run.
ghost use Rattle.std.specs.Prelude.{◌≡◌, IfOk, All, sum, vec_len};
ghost use Rattle.transfers.specs.Scene.{MayWork};
ghost use Rattle.transfers.specs.Made.{HasWorked, AllWorked, AreTrue};

use crate::stops::StopInside;
use crate::works::{ACCOUNTS, EACH, OPENING, Report, WORKERS, work};
use accounts::{Accounts, balances};
use lock_attempts::make_tickets;
use runner_steps::table_words::Layout;
use settled_tables::closed_words::version_words::{FlockTable, Runner};
use settled_tables::{close_table, open_table};
use std::alloc::{AllocError, Global};
use std::thread;
use std::thread::Threads;

/// How many own transfers the first worker makes before it stops inside one.
const BEFORE: u32 = 3;

/// What a run leaves: the workers' reports and the balances, in order of number.
#[derive(Drop)]
pub struct Summary {
    pub reports: Vec<Report>,
    pub balances: Vec<u32>,
}

/// Runs each worker in a thread of its own where one can be made. The first one's gate stops it for good.
fn run_workers<R: Threads + Sync>(
    rt: &R,
    table: &FlockTable<Accounts>,
    workers: Vec<Runner<Accounts>>,
) -> Result<Vec<(Runner<Accounts>, Report)>, AllocError>
    requires may { All (MayWork table.now) workers.items }
    ensures len { IfOk result (λ backs. vec_len backs ≡ vec_len workers) }
    ensures each { IfOk result (λ backs. AllWorked table.now workers.items backs.items) }
{
    let run = |runner: Runner<Accounts>| -> (Runner<Accounts>, Report)
        requires { MayWork table.now runner }
        ensures { HasWorked table.entry.now runner result }
    {
        let stop = if runner.number() == 0 {
            Some(BEFORE)
        } else {
            None
        };
        let mut gate = StopInside::new(stop);
        work(table, runner, &mut gate)
    };
    thread::map_vec(rt, workers, &run)
}

/// A new table of accounts, its workers' transfers on threads, and what is left once it is settled and closed. Each
/// worker made as many transfers as its report tells, each once, and the balances have the sum that they had at first.
///
/// The Err is want of memory.
pub fn run<R: Threads + Sync>(rt: &R, alloc: Global) -> Result<Summary, AllocError>
    ensures sum { IfOk result (λ summary. sum summary.balances.items ≡ 80000) }
    ensures reports { IfOk result (λ summary. AreTrue summary.reports.items) }
{
    let layout = Layout {
        runners: WORKERS,
        nodes: 2,
        sections: 1_024,
        version_max: u32::MAX,
    };
    let tickets = make_tickets(alloc, WORKERS, EACH)?;
    let bank = Accounts::new(ACCOUNTS, OPENING);
    let (table, keeper, workers) = open_table(alloc, bank, layout, tickets.as_slice())?;
    let backs = run_workers(rt, &table, workers)?;
    let (words, reports) = close_table(alloc, table, keeper, backs)?;
    let balances = balances(alloc, &words)?;
    Ok(Summary { reports, balances })
}
