//! A run of the requests of a text.
ghost use Rattle.std.specs.Prelude.{◌≡◌, ◌+◌, ◌*◌, ◌≤◌, ◌&&◌, All, length, is_none, nat_lt, true};
ghost use Rattle.std.specs.List.{list_all};
ghost use Rattle.direct_table.specs.map_history.specs.declared.op.Request.{Request as Asked};
ghost use Rattle.direct_table.specs.map_history.specs.Keys.{key_of, other_key_of};
ghost use Rattle.direct_table.specs.direct_laws.specs.Direct.{serves};

use crate::runs::{Ended, run_direct};
use direct_table::map_history::{Reply, Request};
use std::alloc::{AllocError, Global};
use std::sync::Wait;
use std::thread::Threads;
use threaded_runs::runner_gate::Gates;
use threaded_runs::serving::Served;
use trace_reader::{SureSource, read_traces};

/// What is left of the run of a text: what each worker answered, the stamp and the reply of each request, and the
/// pairs.
#[derive(Drop)]
pub struct Row {
    pub answers: Vec<Served>,
    pub entries: Vec<Option<(u64, Reply)>>,
    pub pairs: Vec<(u32, u32)>,
}

impl Row {
    /// The replies, in order of number. None for a request that has no entry.
    fn replies(&self, alloc: Global) -> Result<Vec<Option<Reply>>, AllocError> {
        let mut replies = Vec::new(alloc);
        for entry in self.entries.as_slice() {
            match entry {
                Some(served) => replies.push(Some(served.1))?,
                None => replies.push(None)?,
            }
        }
        Ok(replies)
    }

    /// As a text: what each worker answered, the stamps and the replies, and the pairs.
    pub fn shown(&self, alloc: Global) -> Result<String, AllocError> {
        let (answers, entries, pairs) = (&self.answers, &self.entries, &self.pairs);
        format!(in alloc; "{answers:?} {entries:?} {pairs:?}")
    }

    /// The same without the stamps.
    pub fn shown_replies(&self, alloc: Global) -> Result<String, AllocError> {
        let replies = self.replies(alloc)?;
        let (answers, pairs) = (&self.answers, &self.pairs);
        format!(in alloc; "{answers:?} {replies:?} {pairs:?}")
    }
}

/// The bytes of a text whose lines end in '/'.
fn bytes_of(alloc: Global, text: &str) -> Result<Vec<u8>, AllocError> {
    let mut bytes = Vec::new(alloc);
    for byte in text.as_bytes() {
        bytes.push(if *byte == b'/' { b'\n' } else { *byte })?;
    }
    Ok(bytes)
}

/// Whether each of these requests has one key, and it is below eight.
fn are_low(requests: &[Request]) -> bool
    ensures { result ≡ list_all (λ (x : Asked). is_none (other_key_of x.op) && nat_lt (key_of x.op) 8) requests.now }
{
    requests
        .iter()
        .all(|x| x.op.other_key().is_none() && x.op.key() < 8)
}

/// Whether the table of eight keys serves each of them.
fn are_served(requests: &[Request]) -> bool
    ensures { result ≡ true → All (λ (x : Asked). serves 8 x.op ≡ true) requests.now }
{
    are_low(requests)
}

/// The entry of each of these requests, which are those of the run.
fn entries_of(
    alloc: Global,
    end: &Ended,
    requests: &[Request],
) -> Result<Vec<Option<(u64, Reply)>>, AllocError>
    requires same { end.now.words.requests ≡ requests.now }
    requires few { length requests.now ≤ 131072 }
{
    let mut entries = Vec::new(alloc);
    for number in 0..requests.len() {
        entries.push(end.entry(number as u32))?;
    }
    Ok(entries)
}

/// Runs the requests of a trace text, whose lines end in '/', on a new table of eight keys, whose cells begin at this
/// place. The Err is want of memory, a text that is refused, or a key that the table doesn't have.
pub fn run_text<R: Threads + Wait + Sync, G: Gates>(
    rt: &R,
    alloc: Global,
    base: u32,
    text: &str,
    halts: &[Option<u64>],
    gates: &mut G,
) -> Result<Row, AllocError>
    requires base { base + 3 * 8 ≤ 12288 }
    requires workers { (1 ≤ length halts.now) × (length halts.now ≤ 16) }
{
    let mut source = SureSource::new(bytes_of(alloc, text)?, Vec::new(alloc));
    let Ok(traces) = read_traces(alloc, &mut source) else {
        return Err(AllocError);
    };
    let requests = traces.requests.as_slice();
    if !are_served(requests) {
        return Err(AllocError);
    }
    let end = run_direct(rt, alloc, base, requests, halts, gates)?;
    let entries = entries_of(alloc, &end, requests)?;
    let Ended {
        answers,
        words,
        pairs,
    } = end;
    drop(words);
    Ok(Row {
        answers,
        entries,
        pairs,
    })
}
