//! Workers that move money between accounts.
ghost use Rattle.std.specs.Prelude.{◌≡◌, ◌≢◌, ◌*◌, ◌<◌, ◌≤◌, IfOk, All, sum, vec_len};
ghost use Rattle.accounts.specs.account_laws.specs.Accounts.{accounts_of};
ghost use Rattle.settled_tables.specs.closed_words.specs.version_words.specs.TableState.{IsOf};
ghost use Rattle.settled_tables.specs.Keeper.{IsIdleKeeper};
ghost use Rattle.settled_tables.specs.Seats.{AreNewWorkers, CameBack, AllCameBack};
ghost use Rattle.lock_tests.specs.Bank.{IsBank, MayMove};

use accounts::{Accounts, Transfer, balances};
use hash_table::lock_walks::version_words::{FlockTable, Runner};
use lock_attempts::{make_tickets, spend_ticket, tickets_of};
use machine_states::body_terms::Steps;
use machine_states::map_history::Op;
use machine_states::table_words::Layout;
use settled_tables::settling::runner_gate::{Free, Gate, HaltAt};
use settled_tables::{close_table, open_table};
use std::alloc::{AllocError, Global};
use std::thread;
use std::thread::Threads;

/// So many accounts, each with 100 at first, for so many workers with so many tickets each.
pub fn open_bank(
    alloc: Global,
    accounts: u32,
    workers: u32,
    each: u32,
) -> Result<
    (
        FlockTable<Accounts>,
        Runner<Accounts>,
        Vec<Runner<Accounts>>,
    ),
    AllocError,
>
    requires accounts { (2 ≤ accounts) × (2 * accounts ≤ 12288) }
    requires some { (1 ≤ workers) × (0 < each) }
    requires workers { workers ≤ 16 }
    requires few { workers * each ≤ 131072 }
    ensures bank { IfOk result (λ x. IsBank accounts workers each x.0) }
    ensures own { IfOk result (λ x. IsOf x.0 x.1) }
    ensures keeper { IfOk result (λ x.
        IsIdleKeeper (accounts_of x.0.structure.accounts x.0.structure.opening) workers 0 x.1) }
    ensures len { IfOk result (λ x. vec_len x.2 ≡ workers) }
    ensures workers { IfOk result (λ x. All (MayMove accounts workers each x.0) x.2.items) }
    ensures new { IfOk result (λ x. AreNewWorkers x.0 x.2.items) }
{
    let layout = Layout {
        runners: workers,
        nodes: 2,
        sections: 64,
        version_max: u32::MAX,
    };
    let tickets = make_tickets(alloc, workers, each)?;
    let bank = Accounts::new(accounts, 100);
    let (table, keeper, runners) = open_table(alloc, bank, layout, tickets.as_slice())?;
    Ok((table, keeper, runners))
}

/// The account behind this one.
fn next_of(accounts: u32, account: u32) -> u32
    requires some { 2 ≤ accounts }
    requires account { account < accounts }
    ensures next { result < accounts }
    ensures other { account ≢ result }
{
    if account + 1 < accounts {
        account + 1
    } else {
        0
    }
}

/// Makes the worker's transfers, one in each turn, from one account to the next. How many it made.
pub fn move_money<G: Gate>(
    table: &FlockTable<Accounts>,
    mut runner: Runner<Accounts>,
    each: u32,
    gate: &mut G,
) -> (Runner<Accounts>, u32)
    requires may { MayMove table.now.structure.accounts table.now.layout.runners each table.now runner }
    ensures back { CameBack table.now runner result }
{
    let worker = runner.number();
    let accounts = table.structure().count();
    let mut tickets = tickets_of(table, &runner, each);
    let mut steps = Steps::<()>::new();
    for turn in 0..each {
        let from = (worker % accounts + turn % accounts) % accounts;
        let transfer = Transfer {
            from,
            to: next_of(accounts, from),
            amount: 1 + turn % 7,
        };
        let walk = table.structure().walk(table.layout(), Op::Get(0), transfer);
        let (next, answer) = spend_ticket(
            table,
            runner,
            &mut tickets,
            walk,
            u32::MAX,
            gate,
            &mut steps,
        );
        runner = next;
        match answer {
            Ok(_) => {}
            Err(_) => return (runner, turn),
        }
    }
    (runner, each)
}

/// What a run leaves, in order of number: how many transfers each worker made, and the balances.
#[derive(Drop)]
pub struct Moved {
    pub made: Vec<u32>,
    pub balances: Vec<u32>,
}

/// The workers' transfers, each worker on a thread of its own where one can be made.
fn run_movers<R: Threads + Sync>(
    rt: &R,
    table: &FlockTable<Accounts>,
    runners: Vec<Runner<Accounts>>,
    each: u32,
) -> Result<Vec<(Runner<Accounts>, u32)>, AllocError>
    requires may { All (MayMove table.now.structure.accounts table.now.layout.runners each table.now) runners.items }
    ensures len { IfOk result (λ backs. vec_len backs ≡ vec_len runners) }
    ensures each { IfOk result (λ backs. AllCameBack table.now runners.items backs.items) }
{
    let run = |runner: Runner<Accounts>| -> (Runner<Accounts>, u32)
        requires { MayMove table.now.structure.accounts table.now.layout.runners each table.now runner }
        ensures { CameBack table.entry.now runner result }
    { move_money(table, runner, each, &mut Free::new()) };
    thread::map_vec(rt, runners, &run)
}

/// The workers' transfers, one worker behind the other. The first one is stopped for good at its ask with this number.
fn stop_mover(
    table: &FlockTable<Accounts>,
    alloc: Global,
    runners: Vec<Runner<Accounts>>,
    ask: u64,
) -> Result<Vec<(Runner<Accounts>, u32)>, AllocError>
    requires may { All (MayMove table.now.structure.accounts table.now.layout.runners 1 table.now) runners.items }
    ensures len { IfOk result (λ backs. vec_len backs ≡ vec_len runners) }
    ensures each { IfOk result (λ backs. AllCameBack table.now runners.items backs.items) }
{
    let mut backs = Vec::with_capacity(alloc, runners.len())?;
    for runner in runners {
        let at = if runner.number() == 0 {
            Some(ask)
        } else {
            None
        };
        backs.push(move_money(table, runner, 1, &mut HaltAt::new(at)))?;
    }
    Ok(backs)
}

/// All transfers of so many workers, each on a thread of its own where one can be made.
pub fn move_all<R: Threads + Sync>(
    rt: &R,
    alloc: Global,
    accounts: u32,
    workers: u32,
    each: u32,
) -> Result<Moved, AllocError>
    requires accounts { (2 ≤ accounts) × (2 * accounts ≤ 12288) }
    requires some { (1 ≤ workers) × (0 < each) }
    requires workers { workers ≤ 16 }
    requires few { workers * each ≤ 131072 }
    ensures made { IfOk result (λ moved. vec_len moved.made ≡ workers) }
    ensures sum { IfOk result (λ moved. sum moved.balances.items ≡ accounts * 100) }
{
    let (table, keeper, runners) = open_bank(alloc, accounts, workers, each)?;
    let backs = run_movers(rt, &table, runners, each)?;
    let (words, made) = close_table(alloc, table, keeper, backs)?;
    let balances = balances(alloc, &words)?;
    Ok(Moved { made, balances })
}

/// One transfer of each of two workers between two accounts, one behind the other. The first one is stopped for good at
/// its ask with this number.
pub fn stop_first(alloc: Global, ask: u64) -> Result<Moved, AllocError>
    ensures made { IfOk result (λ moved. vec_len moved.made ≡ 2) }
    ensures sum { IfOk result (λ moved. sum moved.balances.items ≡ 200) }
{
    let (table, keeper, runners) = open_bank(alloc, 2, 2, 1)?;
    let backs = stop_mover(&table, alloc, runners, ask)?;
    let (words, made) = close_table(alloc, table, keeper, backs)?;
    let balances = balances(alloc, &words)?;
    Ok(Moved { made, balances })
}
