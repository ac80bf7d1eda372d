//! The section of a ticket, again where it was refused.
ghost use Rattle.std.specs.Prelude.{◌≡◌, ◌≢◌, ◌+◌, ◌<◌, IfOk, IfErr, Err, true};
ghost use Rattle.machine_states.specs.map_history.specs.declared.op.Op.TheVariants.{Get};
ghost use Rattle.version_words.specs.TableState.{IsOf};
ghost use Rattle.attempts.specs.lock_walks.specs.Way.{Leads};
ghost use Rattle.attempts.specs.lock_walks.specs.Own.{own_thunk};
ghost use Rattle.attempts.specs.lock_walks.specs.Wants.{WantsWereRead};
ghost use Rattle.attempts.specs.caller_facts.specs.Counted.{IsSeen};
ghost use Rattle.attempts.specs.caller_facts.specs.Asking.{MayAttempt};
ghost use Rattle.attempts.specs.declared.answers.Attempt.TheVariants as answers;
ghost use Rattle.lock_attempts.specs.Again.{is_tried_again, Persists};
ghost use Rattle.lock_attempts.specs.Tickets.{ticket, HasTickets};

use crate::attempting::attempt_section;
use crate::tickets::Tickets;
use attempts::Attempt;
use attempts::lock_walks::Walker;
use machine_states::body_terms::Steps;
use machine_states::map_history::{Op, Request};
use machine_states::structure_laws::Structure;
use runner_gate::Gate;
use version_words::{FlockTable, Runner};

/// Whether a section is attempted again after this answer: another one came between, or slots are in limbo.
fn is_again(answer: &Result<u64, Attempt>) -> bool
    ensures { result ≡ is_tried_again answer.now }
{
    match answer {
        Err(Attempt::Busy { place: _, word: _ }) => true,
        Err(
            Attempt::Stale {
                place: _,
                expected: _,
                read: _,
            },
        ) => true,
        Err(Attempt::Far { loads: _ }) => true,
        Err(Attempt::Short(_)) => true,
        _ => false,
    }
}

/// Attempts the request's section, and again where it was refused, so many times more at most.
fn persist<S: Structure, W: Walker + Copy, G: Gate, L>(
    table: &FlockTable<S>,
    runner: Runner<S>,
    request: &Request,
    walk: W,
    more: u32,
    gate: &mut G,
    steps: &mut Steps<L>,
) -> (Runner<S>, Result<u64, Attempt>)
    requires own { IsOf table.now runner }
    requires wants { WantsWereRead (S.meaning table.now.structure) }
    requires op { W.way.op walk ≡ request.now.op }
    requires leads { Leads W.way (S.meaning table.now.structure) table.now.layout walk }
    requires next { MayAttempt (W.way.planning walk) request.now runner }
    ensures own { IsOf table.now result.0 }
    ensures persists { Persists (S.meaning table.now.structure) (W.way.planning walk) request.now
        (own_thunk W.way walk request.now.number) more result.1 runner result.0 (IsSeen G.halts G.asks)
        (G.halts gate.old) (G.halts gate.new) (G.asks gate.old) (G.asks gate.new) steps.old.count steps.new.count }
{
    let mut runner = runner;
    for _again in 0..more {
        let (next, answer) = attempt_section(table, runner, request, walk, gate, steps);
        if !is_again(&answer) {
            return (next, answer);
        }
        runner = next;
    }
    attempt_section(table, runner, request, walk, gate, steps)
}

/// Uses the next ticket for a section: attempts it by this walk, and again from the walk's beginning where it was
/// refused, so many times more at most.
///
/// What is said of the answer is what `attempt_section` says of the last attempt; those before it were refused, and
/// nothing of their sections happened. At `Ok` the ticket is used, and the section happened once, with the walk's own
/// thunk by the words that the last attempt read. At every other answer but `Halted` nothing happened, and the ticket
/// is as it was. So unless it was halted the worker may go on with the tickets that are left.
///
/// That an attempt is ever answered isn't promised: locks may be held again and again. No memory is taken, and nothing
/// waits.
pub fn spend_ticket<S: Structure, W: Walker + Copy, G: Gate, L>(
    table: &FlockTable<S>,
    runner: Runner<S>,
    tickets: &mut Tickets,
    walk: W,
    more: u32,
    gate: &mut G,
    steps: &mut Steps<L>,
) -> (Runner<S>, Result<u64, Attempt>)
    requires own { IsOf table.now runner }
    requires wants { WantsWereRead (S.meaning table.now.structure) }
    requires op { W.way.op walk ≡ Get 0 }
    requires serves { (W.way.planning walk).serves (Get 0) ≡ true }
    requires leads { Leads W.way (S.meaning table.now.structure) table.now.layout walk }
    requires tickets { HasTickets tickets.old runner }
    requires some { tickets.old.next < tickets.old.end }
    ensures own { IsOf table.now result.0 }
    ensures number { result.0.number ≡ runner.number }
    ensures persists { Persists (S.meaning table.now.structure) (W.way.planning walk)
        (ticket tickets.old.trace tickets.old.next) (own_thunk W.way walk tickets.old.next) more
        result.1 runner result.0 (IsSeen G.halts G.asks)
        (G.halts gate.old) (G.halts gate.new) (G.asks gate.old) (G.asks gate.new) steps.old.count steps.new.count }
    ensures used { IfOk result.1 (λ _. tickets.new ≡ record tickets.old { next = tickets.old.next + 1 }) }
    ensures unused { IfErr result.1 (λ _. tickets.new ≡ tickets.old) }
    ensures tickets { result.1 ≢ Err answers.Halted → HasTickets tickets.new result.0 }
{
    let request = Request {
        trace: tickets.trace,
        number: tickets.next,
        op: Op::Get(0),
    };
    let (runner, answer) = persist(table, runner, &request, walk, more, gate, steps);
    match answer {
        Ok(reply) => {
            tickets.next += 1;
            (runner, Ok(reply))
        }
        Err(refused) => (runner, Err(refused)),
    }
}
