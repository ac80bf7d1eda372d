//! The report, printed from the words of a closed table.
ghost use Rattle.std.specs.Prelude.{◌≡◌, true, ◌≤◌, length, IfOk, IfErr, OnOk};
ghost use Rattle.std.specs.FinMap.{len};
ghost use Rattle.history_orders.specs.map_history.specs.Replay.{Pairs};
ghost use Rattle.history_orders.specs.map_history.specs.Requests.{AreInOrder, most_requests};
ghost use Rattle.closed_words.specs.Histories.{HoldsNoLock};
ghost use Rattle.run_reports.specs.Reports.{unserved_in, HaveContents, Prints};
ghost use Rattle.run_reports.specs.Stops.{StopsPrinting};

use crate::entries::entries_of;
use closed_words::closed_words_have_a_history;
use closed_words::version_words::{Words, words_are_reached};
use history_orders::map_history::{Entry, Request};
use report_text::{Sink, ranks, write_report};
use std::alloc::{AllocError, Global};
use structure_laws::Structure;

/// Why a report wasn't printed whole.
#[derive(Clone, Copy, Debug, PartialEq, Eq)]
pub enum PrintError {
    /// Want of memory, before the first byte was written.
    Memory,
    /// The sink failed.
    Failed,
}

impl From<AllocError> for PrintError {
    ghost use Rattle.run_reports.specs.declared.printing.PrintError.TheVariants.{Memory};

    ghost from_gives = { λ _ error. error ≡ Memory };

    fn from(_: AllocError) -> Self {
        PrintError::Memory
    }
}

impl From<report_text::Failed> for PrintError {
    ghost use Rattle.run_reports.specs.declared.printing.PrintError.TheVariants.{Failed};

    ghost from_gives = { λ _ error. error ≡ Failed };

    fn from(_: report_text::Failed) -> Self {
        PrintError::Failed
    }
}

/// How many requests have no entry.
fn unserved(entries: &[Option<Entry>]) -> u32
    requires { length entries.now ≤ most_requests }
    ensures { result ≡ unserved_in entries.now }
{
    entries.iter().filter(|entry| entry.is_none()).count() as u32
}

/// Appends the report on the requests of a closed table, by its words, and answers how many of them are unserved.
///
/// The requests are the table's, of so many traces, and `size` is the number of pairs of its contents. The structure
/// serves a map, and no lock in the words names a descriptor. The ranks are 0, 1, 2 and so on and rise along each
/// trace, and a plain map that serves the requests in this order gives the printed replies and is left with so many
/// pairs.
///
/// Memory comes before the first byte is written. Failed comes only where the sink's count of faults rose; the sink
/// then holds a part of the report, from the front.
pub fn print_words<S: Structure, K: Sink>(
    alloc: Global,
    traces: u32,
    words: &Words<S>,
    requests: &[Request],
    size: u32,
    sink: &mut K,
) -> Result<u32, PrintError>
    requires requests { requests.now ≡ words.now.requests }
    requires ordered { AreInOrder requests.now traces }
    requires map { (S.meaning words.now.structure).is_map ≡ true }
    requires free { HoldsNoLock (S.meaning words.now.structure) words.now }
    requires size { (pairs : Pairs) → HaveContents (S.meaning words.now.structure) words.now pairs → size ≡ len pairs }
    ensures prints { IfOk result (λ unserved.
        Prints (S.meaning words.now.structure) words.now traces unserved (K.held sink.old) (K.held sink.new)) }
    ensures stops { IfErr result (λ error.
        StopsPrinting (S.meaning words.now.structure) words.now traces error (K.held sink.old) (K.held sink.new)
        (K.faults sink.old) (K.faults sink.new)) }
    ensures steady { OnOk result (K.faults sink.new ≡ K.faults sink.old) }
{
    words_are_reached(words);
    closed_words_have_a_history(words);
    let entries = entries_of(alloc, words, requests.len() as u32)?;
    let ranks = ranks(alloc, &entries)?;
    write_report(traces, requests, &entries, &ranks, size, sink)?;
    Ok(unserved(&entries))
}
