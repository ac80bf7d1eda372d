//! Tickets: requests of one section each.
ghost use Rattle.std.specs.Prelude.{◌≡◌, ◌+◌, ◌-◌, ◌*◌, ◌<◌, ◌≤◌, IfOk, []};
ghost use Rattle.machine_states.specs.map_history.specs.Requests.{AreInOrder, most_requests};
ghost use Rattle.version_words.specs.TableState.{IsOf};
ghost use Rattle.attempts.specs.epoch_slots.specs.Collects.{IsTidy};
ghost use Rattle.lock_attempts.specs.Tickets.{tickets_for, HasTickets};

use machine_states::map_history::{Op, Request};
use machine_states::structure_laws::Structure;
use std::alloc::{AllocError, Global};
use version_words::{FlockTable, Runner};

/// The tickets of a worker that aren't used yet: those of one trace, from one number up to another.
#[derive(Clone, Copy, Debug, PartialEq, Eq)]
pub struct Tickets {
    pub trace: u32,
    pub next: u32,
    pub end: u32,
}

impl Tickets {
    /// How many are left.
    pub fn left(&self) -> u32
        ensures { result ≡ self.now.end - self.now.next }
    {
        self.end.saturating_sub(self.next)
    }
}

/// For each of so many workers so many tickets, one worker's after the other's. The Err is want of memory.
pub fn make_tickets(alloc: Global, workers: u32, each: u32) -> Result<Vec<Request>, AllocError>
    requires some { 0 < each }
    requires workers { workers ≤ 16 }
    requires few { workers * each ≤ most_requests }
    ensures tickets { IfOk result (λ tickets. tickets.items ≡ tickets_for workers each) }
    ensures ordered { IfOk result (λ tickets. AreInOrder tickets.items 64) }
{
    let count = workers * each;
    let mut tickets = Vec::new(alloc);
    for number in 0..count {
        tickets.push(Request {
            trace: number / each,
            number,
            op: Op::Get(0),
        })?;
    }
    Ok(tickets)
}

/// The tickets of a new worker, where each has so many.
#[tactic(auto, using(crate::proofs::Numbering::first_fits, crate::proofs::Numbering::last_fits))]
pub fn tickets_of<S: Structure>(table: &FlockTable<S>, worker: &Runner<S>, each: u32) -> Tickets
    requires own { IsOf table.now worker.now }
    requires tidy { IsTidy worker.now }
    requires new { worker.now.part.records.known ≡ [] }
    requires number { worker.now.number < table.now.layout.runners }
    requires some { 0 < each }
    requires few { table.now.layout.runners * each ≤ most_requests }
    requires tickets { table.now.requests ≡ tickets_for table.now.layout.runners each }
    ensures tickets { HasTickets result worker.now }
    ensures trace { result.trace ≡ worker.now.number }
    ensures next { result.next ≡ worker.now.number * each }
    ensures end { result.end ≡ worker.now.number * each + each }
{
    let _ = table;
    let trace = worker.number();
    Tickets {
        trace,
        next: trace * each,
        end: trace * each + each,
    }
}
