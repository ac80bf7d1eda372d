//! What a worker does.
ghost use Rattle.std.specs.Prelude.{◌≡◌, ◌≢◌, ◌+◌, ◌<◌, ◌≤◌, IfOk, IfErr, Err};
ghost use Rattle.settled_tables.specs.closed_words.specs.version_words.specs.TableState.{IsOf};
ghost use Rattle.lock_attempts.specs.attempts.specs.caller_facts.specs.Knowing.{KnowsMore};
ghost use Rattle.lock_attempts.specs.attempts.specs.declared.answers.Attempt.TheVariants as answers;
ghost use Rattle.lock_attempts.specs.Tickets.{ticket, HasTickets};
ghost use Rattle.settled_tables.specs.Seats.{CameBack};
ghost use Rattle.transfers.specs.Scene.{MayWork};
ghost use Rattle.transfers.specs.Made.{HasMade, Reports};

use accounts::{Accounts, Transfer};
use lock_attempts::attempts::Attempt;
use lock_attempts::{Tickets, spend_ticket, tickets_of};
use runner_steps::body_terms::Steps;
use runner_steps::map_history::Op;
use settled_tables::closed_words::version_words::{FlockTable, Runner};
use settled_tables::settling::runner_gate::Gate;

/// How many workers there are, and how many transfers each is to make.
pub const WORKERS: u32 = 4;

pub const EACH: u32 = 100;

/// How many accounts there are, and what each has at first.
pub const ACCOUNTS: u32 = 8;

pub const OPENING: u32 = 10_000;

/// How often a transfer is attempted again where it was refused.
const TRIES: u32 = 1_000_000;

/// What a worker reports: how many transfers it made, and whether it was stopped inside one more.
#[derive(Clone, Copy, Debug, PartialEq, Eq)]
pub struct Report {
    pub made: u32,
    pub stopped: bool,
}

/// The transfer that a worker makes next: from one account to another, by the worker's number and its turn, of so much.
fn choose(worker: u32, turn: u32, amount: u32) -> Transfer
    requires worker { worker < 4 }
    requires turn { turn < 100 }
    ensures from { result.from < 8 }
    ensures to { result.to < 8 }
    ensures apart { result.from ≢ result.to }
{
    let from = (worker + turn) % ACCOUNTS;
    let to = (from + 1 + turn % (ACCOUNTS - 1)) % ACCOUNTS;
    Transfer { from, to, amount }
}

/// The next amount, by the number with which the last transfer answered: one more than it moved.
fn next_amount(answered: u64) -> u32 {
    (answered % 7 * 3 % 7) as u32 + 1
}

/// Makes this transfer with the worker's next ticket, and attempts it again where it was refused.
///
/// At `Ok` it was made, once: of so much as the one account had of the amount and the other had room for; the answer is
/// one more than that. At every other answer but `Halted` the ticket is unused, and the worker may go on with it.
fn make_transfer<G: Gate>(
    table: &FlockTable<Accounts>,
    runner: Runner<Accounts>,
    tickets: &mut Tickets,
    transfer: Transfer,
    gate: &mut G,
    steps: &mut Steps<()>,
) -> (Runner<Accounts>, Result<u64, Attempt>)
    requires own { IsOf table.now runner }
    requires from { transfer.from < table.now.structure.accounts }
    requires to { transfer.to < table.now.structure.accounts }
    requires apart { transfer.from ≢ transfer.to }
    requires tickets { HasTickets tickets.old runner }
    requires some { tickets.old.next < tickets.old.end }
    ensures own { IsOf table.now result.0 }
    ensures number { result.0.number ≡ runner.number }
    ensures knows { KnowsMore runner result.0 }
    ensures made { IfOk result.1 (λ answered. HasMade table.now transfer (ticket tickets.old.trace tickets.old.next)
        answered runner result.0) }
    ensures used { IfOk result.1 (λ _. tickets.new ≡ record tickets.old { next = tickets.old.next + 1 }) }
    ensures unused { IfErr result.1 (λ _. tickets.new ≡ tickets.old) }
    ensures tickets { result.1 ≢ Err answers.Halted → HasTickets tickets.new result.0 }
{
    let walk = table.structure().walk(table.layout(), Op::Get(0), transfer);
    spend_ticket(table, runner, tickets, walk, TRIES, gate, steps)
}

/// Makes the worker's transfers, each of an amount that is chosen by what the one before it moved. So many as it
/// reports were made, one behind the other, each once.
pub fn work<G: Gate>(
    table: &FlockTable<Accounts>,
    mut runner: Runner<Accounts>,
    gate: &mut G,
) -> (Runner<Accounts>, Report)
    requires may { MayWork table.now runner }
    ensures back { CameBack table.now runner result }
    ensures made { result.1.made ≤ 100 }
    ensures each { Reports table.now result.1.made runner result.0 }
{
    let worker = runner.number();
    let mut tickets = tickets_of(table, &runner, EACH);
    let mut steps = Steps::<()>::new();
    let mut amount = 1;
    for turn in 0..EACH {
        let transfer = choose(worker, turn, amount);
        let (next, answer) = make_transfer(table, runner, &mut tickets, transfer, gate, &mut steps);
        runner = next;
        match answer {
            Ok(answered) => amount = next_amount(answered),
            Err(refused) => {
                let stopped = refused == Attempt::Halted;
                return (
                    runner,
                    Report {
                        made: turn,
                        stopped,
                    },
                );
            }
        }
    }
    (
        runner,
        Report {
            made: EACH,
            stopped: false,
        },
    )
}
