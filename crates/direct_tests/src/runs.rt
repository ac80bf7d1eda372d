//! A run of requests on a new direct table.
ghost use Rattle.std.specs.Prelude.{◌≡◌, ◌+◌, ◌*◌, ◌<◌, ◌≤◌, IfOk, All, length, true, false};
ghost use Rattle.std.specs.FinMap.{entries};
ghost use Rattle.direct_table.specs.map_history.specs.Replay.{Pairs};
ghost use Rattle.direct_table.specs.map_history.specs.Requests.{AreInOrder};
ghost use Rattle.direct_table.specs.direct_laws.specs.Direct.{serves, direct};
ghost use Rattle.threaded_runs.specs.Runs.{AreServed};
ghost use Rattle.direct_table.specs.try_lock.specs.Contents.{StandFor};
ghost use Rattle.threaded_runs.specs.closed_words.specs.Histories.{HoldsNoLock};

use direct_table::DirectTable;
use direct_table::lock_walks::Planner;
use direct_table::lock_walks::version_words::Words;
use direct_table::map_history::{Reply, Request};
use std::alloc::{AllocError, Global};
use std::sync::Wait;
use std::thread::Threads;
use table_words::Layout;
use threaded_runs::closed_words::closed_words_have_a_history;
use threaded_runs::run_table;
use threaded_runs::runner_gate::Gates;
use threaded_runs::serving::Served;

/// What is left of a run: what each worker answered, in order of number, the closed table's words, and its pairs.
#[derive(Drop)]
pub struct Ended {
    pub answers: Vec<Served>,
    pub words: Words<DirectTable>,
    pub pairs: Vec<(u32, u32)>,
}

impl Ended {
    /// The stamp and the reply of the request with this number. None where it has no entry.
    pub fn entry(&self, number: u32) -> Option<(u64, Reply)>
        requires { number < length self.now.words.requests }
    {
        let (stamp, word) = self.words.entry(number)?;
        let reply = Reply::from_word(word)?;
        Some((stamp, reply))
    }
}

/// The pairs of a closed table whose locks are free, in order of key.
fn pairs_of(alloc: Global, words: &Words<DirectTable>) -> Result<Vec<(u32, u32)>, AllocError>
    requires free { HoldsNoLock (direct words.now.structure.base words.now.structure.keys) words.now }
    ensures { IfOk result (λ items. (pairs : Pairs)
        → StandFor (direct words.now.structure.base words.now.structure.keys) words.now pairs
        → items.items ≡ entries pairs) }
{
    closed_words_have_a_history(words);
    words.structure().contents(alloc, words)
}

/// Runs these requests on a new table of eight keys, whose cells begin at this place, with a worker for each entry of
/// `halts`, on a thread of its own where one can be made. A worker that lacks slots doesn't try again. The Err is want
/// of memory.
pub fn run_direct<R: Threads + Wait + Sync, G: Gates>(
    rt: &R,
    alloc: Global,
    base: u32,
    requests: &[Request],
    halts: &[Option<u64>],
    gates: &mut G,
) -> Result<Ended, AllocError>
    requires base { base + 3 * 8 ≤ 12288 }
    requires ordered { AreInOrder requests.now 64 }
    requires served { All (λ (request : Request). serves 8 request.op ≡ true) requests.now }
    requires workers { (1 ≤ length halts.now) × (length halts.now ≤ 16) }
    ensures requests { IfOk result (λ end. end.words.requests ≡ requests.now) }
    ensures served { IfOk result (λ end. AreServed (direct base 8) end.words false false end.answers.items) }
    ensures contents { IfOk result (λ end. (pairs : Pairs) → StandFor (direct base 8) end.words pairs
        → end.pairs.items ≡ entries pairs) }
{
    let layout = Layout {
        runners: halts.len() as u32,
        nodes: 2,
        sections: 2,
        version_max: 4294967295,
    };
    let table = DirectTable::new(base, 8);
    let (words, answers) = run_table(
        rt, alloc, table, layout, requests, halts, false, false, gates,
    )?;
    let pairs = pairs_of(alloc, &words)?;
    Ok(Ended {
        answers,
        words,
        pairs,
    })
}
