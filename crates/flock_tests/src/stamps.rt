//! Rows of one worker on whose stamps it is looked: those of reads without a lock are odd, and two may be the same.
ghost use Rattle.std.specs.Prelude.{◌≡◌, All, true};
ghost use Rattle.map_history.specs.declared.op.Request.{Request};
ghost use Rattle.map_history.specs.Requests.{AreInOrder};

use crate::program::bytes_of;
use flock_tool::hash_table::HashTable;
use flock_tool::hash_table::lock_walks::Planner;
use flock_tool::leaf_tree::LeafTree;
use flock_tool::threaded_runs::run_table;
use flock_tool::threaded_runs::runner_gate::FreeGates;
use flock_tool::trace_reader::{SureSource, read_traces};
use map_history::Request;
use std::alloc::{AllocError, Global};
use std::sync::Wait;
use std::test::Fail;
use std::thread::Threads;
use table_words::Layout;

/// Runs these requests on one table of the structure, by one worker that reads without a lock or doesn't, and gives the
/// stamp of each, 0 where it has no entry. The Err is want of memory.
pub fn stamps_on<T: Threads + Wait + Sync, S: Planner>(
    rt: &T,
    alloc: Global,
    structure: S,
    requests: &[Request],
    reads_free: bool,
) -> Result<Vec<u64>, AllocError>
where
    S::Walk: Send + Sync,
    requires ordered { AreInOrder requests.now 64 }
    requires served { All (λ (request : Request). (S.planning structure).serves request.op ≡ true) requests.now }
{
    let layout = Layout {
        runners: 1,
        nodes: 16,
        sections: 4,
        version_max: u32::MAX,
    };
    let gates = &mut FreeGates::new();
    let (words, _) = run_table(
        rt,
        alloc,
        structure,
        layout,
        requests,
        &[None],
        false,
        reads_free,
        gates,
    )?;
    let mut stamps = Vec::with_capacity(alloc, requests.len())?;
    for number in 0..requests.len() {
        let stamp = match words.entry(number as u32) {
            Some((stamp, _)) => stamp,
            None => 0,
        };
        stamps.push(stamp)?;
    }
    Ok(stamps)
}

/// The stamps of a text's requests on the hash table, or on the tree. None where the text is refused, or may move keys.
pub fn stamps_of<T: Threads + Wait + Sync>(
    rt: &T,
    alloc: Global,
    text: &str,
    on_tree: bool,
    reads_free: bool,
) -> Result<Option<Vec<u64>>, AllocError> {
    let mut source = SureSource::new(bytes_of(alloc, text)?, Vec::new(alloc));
    let Ok(traces) = read_traces(alloc, &mut source) else {
        return Ok(None);
    };
    if traces.format == 3 {
        return Ok(None);
    }
    let requests = traces.requests.as_slice();
    let stamps = if on_tree {
        stamps_on(rt, alloc, LeafTree::new(), requests, reads_free)?
    } else {
        stamps_on(rt, alloc, HashTable::new(6), requests, reads_free)?
    };
    Ok(Some(stamps))
}

// Each row: a text, and the stamps of its requests where reads take no lock, and where they do.
const ROWS: [(&str, [u64; 4], [u64; 4]); 3] = [
    (
        "flock 1/trace/get 1/get 1/get 1/get 2/",
        [1, 1, 1, 1],
        [2, 4, 6, 8],
    ),
    (
        "flock 1/trace/get 1/ins 1 5/get 1/get 1/",
        [1, 2, 3, 3],
        [2, 4, 6, 8],
    ),
    (
        "flock 1/trace/ins 1 5/get 1/trace/ins 1 6/get 2/",
        [2, 3, 4, 5],
        [2, 4, 6, 8],
    ),
];

#[test]
fn a_read_without_a_lock_has_an_odd_stamp(rt: HostRuntime) -> Result<(), Fail> {
    let alloc = rt.alloc();
    for (text, free, locked) in ROWS {
        for on_tree in [false, true] {
            let stamps = stamps_of(&rt, alloc, text, on_tree, true)?.ok_or("refused")?;
            assert!(rt;
                stamps.as_slice() == free.as_slice(),
                "{text} on tree {on_tree}"
            );
            let stamps = stamps_of(&rt, alloc, text, on_tree, false)?.ok_or("refused")?;
            assert!(rt;
                stamps.as_slice() == locked.as_slice(),
                "{text} on tree {on_tree}"
            );
        }
    }
    Ok(())
}
