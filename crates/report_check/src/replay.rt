// The replies of a report, held against a plain map.
ghost use Rattle.std.specs.Prelude.{◌≡◌, ◌≢◌, ◌<◌, ◌≤◌, Some, false, IfNone, IfOk, IfSome, IsPermutation, IsTrue, length, map};
ghost use Rattle.std.specs.FinMap.{empty, len};
ghost use Rattle.history_orders.specs.map_history.specs.Requests.{most_requests};
ghost use Rattle.history_orders.specs.map_history.specs.declared.op.Entry.{Entry};
ghost use Rattle.history_orders.specs.map_history.specs.History.{IsLegalFrom};
ghost use Rattle.history_orders.specs.map_history.specs.Replay.{map_after_all};
ghost use Rattle.report_check.specs.Faults.{IsFirstLine, IsReplyFault, NoFault};
ghost use Rattle.report_check.specs.Histories.{AreRanked, IsLineOf, history_of, lower_of};
ghost use Rattle.report_check.specs.Said.{rows_said};
ghost use Rattle.report_text.specs.Legal.{answered, op_of};
ghost use Rattle.report_text.specs.Ranks.{turns_of};

use history_orders::map_history::{Book, Entry, Reply, Request};
use std::alloc::{AllocError, Global};

/// What a replay shows.
#[derive(Clone, Copy, Debug, PartialEq, Eq)]
pub struct Replayed {
    /// The number of the first line whose reply is wrong.
    pub wrong: Option<u64>,
    /// How many pairs the map has at the end.
    pub size: usize,
}

/// Serves the requests on a plain map, in the order of their turns, whose stamps are 0, 1, 2 and so on. The Err is want
/// of memory.
pub fn replay(
    alloc: Global,
    requests: &[Request],
    answers: &[Option<Entry>],
    turns: &[(u64, u32)],
) -> Result<Replayed, AllocError>
    requires few { length requests.now ≤ most_requests }
    requires one_each { length answers.now ≡ length requests.now }
    requires all { IsPermutation (turns_of answers.now) turns.now }
    requires ranked { AreRanked turns.now }
    ensures some { IfOk result (λ replayed. IfSome replayed.wrong
        (IsFirstLine (IsReplyFault (history_of requests.now answers.now turns.now)
        (rows_said requests.now answers.now)))) }
    ensures none { IfOk result (λ replayed. IfNone replayed.wrong
        (NoFault (IsReplyFault (history_of requests.now answers.now turns.now) (rows_said requests.now answers.now)))) }
    ensures legal { IfOk result (λ replayed. IfNone replayed.wrong
        (IsLegalFrom empty (map answered (history_of requests.now answers.now turns.now)))) }
    ensures size { IfOk result (λ replayed. replayed.size
        ≡ len (map_after_all empty (map op_of (history_of requests.now answers.now turns.now)))) }
{
    let mut book = Book::new(alloc);
    let mut wrong = None;
    for k in 0..turns.len() {
        let place = turns[k].1 as usize;
        let reply = book.apply(requests[place].op)?;
        if !is_answered(answers[place], reply) {
            wrong = Some(first_of(wrong, place));
        }
    }
    Ok(Replayed {
        wrong: line_of(requests, wrong),
        size: book.len(),
    })
}

// The number of the line of the request in this place.
fn line_of(requests: &[Request], place: Option<usize>) -> Option<u64>
    requires few { length requests.now ≤ most_requests }
    requires within { IfSome place (λ place. place < length requests.now) }
    ensures { IsLineOf requests.now place result }
{
    let place = place?;
    Some(place as u64 + u64::from(requests[place].trace) + 2)
}

// The lower one of two places.
fn first_of(earlier: Option<usize>, place: usize) -> usize
    ensures { result ≡ lower_of earlier place }
{
    match earlier {
        Some(earlier) => earlier.min(place),
        None => place,
    }
}

// The request was answered so.
fn is_answered(answer: Option<Entry>, reply: Reply) -> bool
    ensures yes { (entry : Entry) → answer ≡ Some entry → IsTrue result → entry.reply ≡ reply }
    ensures no { (entry : Entry) → answer ≡ Some entry → result ≡ false → entry.reply ≢ reply }
{
    match answer {
        Some(entry) => entry.reply == reply,
        None => false,
    }
}
