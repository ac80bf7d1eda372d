//! Texts in one piece and in pieces of one byte, texts that are cut off, and reads and writes that fail, each in turn.
//! `program` says what the signs in a text stand for.
ghost use Rattle.std.specs.Prelude.{None};

use crate::program::{Ended, bytes_of, cut, quiet_sink, run_from, status_of};
use flock_tool::report_text::{Failed, MemorySink, Sink};
use flock_tool::threaded_runs::runner_gate::PlannedGates;
use flock_tool::trace_reader::{MemorySource, SureSource};
use flock_tool::{StdSink, StdSource};
use std::alloc::{AllocError, Global};
use std::process::Abort;
use std::sync::Wait;
use std::test::Fail;
use std::thread::Threads;

// Each row: the status, a text, the report, and what is told.
const TEXTS: &str = "\
0|flock 1/|final 0/|
0|flock 1/trace/|trace 0/final 0/|
0|flock 1^/# note^/^/trace^/\tins\t007 1^/get 7|trace 0/0 new/1 val 1/final 1/|
0|flock 1/trace/ins 4294967293 4294967295/get 4294967293/|trace 0/0 new/1 val 4294967295/final 1/|
0|/# before the header ~/ flock\t1 /trace/del 000/|trace 0/0 none/final 0/|
0|flock 1/trace/trace/trace/get 3/|trace 0/trace 1/trace 2/0 none/final 0/|
0|flock 2/trace/ins 1 2/put 1 3/get 1/del 1/|trace 0/0 new/1 was 2/2 val 3/3 gone/final 0/|
0|flock 2/trace/put 4294967293 4294967295/put 4294967293 0|trace 0/0 new/1 was 4294967295/final 1/|
0|flock 3/trace/ins 1 10/mov 1 2/get 1/get 2/mov 1 3/mov 2 2/|trace 0/0 new/1 moved/2 none/3 val 10/4 none/5 dup/final 1/|
0|flock 3/trace/put 4294967293 1/\tmov 04294967293  0^/get 0|trace 0/0 new/1 moved/2 val 1/final 1/|
3|||flock: line 1: no header/
3|trace/get 1/||flock: line 1: no header/
3|# note//||flock: line 3: no header/
3|# note||flock: line 2: no header/
3|flock 4/||flock: line 1: no header/
3|flock 1 1/||flock: line 1: no header/
3|flock 1 2/||flock: line 1: no header/
3|flock ~/||flock: line 1: not ascii/
3|flock 1/trace/get ~/||flock: line 3: not ascii/
3|flock 1/trace/put 1/||flock: line 3: unknown word/
3|flock 1/trace/put 1 2/||flock: line 3: unknown word/
3|flock 1/trace/mov 1 2/||flock: line 3: unknown word/
3|flock 2/trace/mov 1 2/||flock: line 3: unknown word/
3|flock 2/flock 2/||flock: line 2: unknown word/
3|flock 2/put 1 2/||flock: line 2: request before trace/
3|flock 2/trace/put 1/||flock: line 3: missing field/
3|flock 2/trace/put 4294967294 4294967296/||flock: line 3: key too large/
3|flock 2/trace/put 1 4294967296/||flock: line 3: value too large/
3|flock 3/mov 1 2/||flock: line 2: request before trace/
3|flock 3/trace/mov 1/||flock: line 3: missing field/
3|flock 3/trace/mov 1 2 3/||flock: line 3: extra field/
3|flock 3/trace/mov 1 4294967294x/||flock: line 3: bad number/
3|flock 3/trace/mov 4294967294 1/||flock: line 3: key too large/
3|flock 3/trace/mov 1 4294967294/||flock: line 3: key too large/
3|flock 3/trace/put 1 4294967296/||flock: line 3: value too large/
3|flock 1/flock 1/||flock: line 2: unknown word/
3|flock 1/get 1/||flock: line 2: request before trace/
3|flock 1/get/||flock: line 2: request before trace/
3|flock 1/trace/ins 5||flock: line 3: missing field/
3|flock 1/trace/get x y/||flock: line 3: extra field/
3|flock 1/trace/del 1 2/||flock: line 3: extra field/
3|flock 1/trace 0/||flock: line 2: extra field/
3|flock 1/trace/get +1/||flock: line 3: bad number/
3|flock 1/trace/get 1^x/||flock: line 3: bad number/
3|flock 1/trace/ins 4294967294 x/||flock: line 3: bad number/
3|flock 1/trace/ins 4294967294 1/||flock: line 3: key too large/
3|flock 1/trace/ins 4294967294 4294967296/||flock: line 3: key too large/
3|flock 1/trace/ins 1 4294967296/||flock: line 3: value too large/
3|flock 1/trace/get 99999999999999999999999999/||flock: line 3: key too large/
";

// The same with words that name a table which serves no text of format 3: such a text is read up to its end.
const FOR_ANOTHER_TABLE: &str = "\
2|flock 3/||flock: words refused/
2|flock 3/trace/ins 1 10/mov 1 2/get 1/get 2/mov 1 3/mov 2 2/||flock: words refused/
2|flock 3/trace/get 1||flock: words refused/
3|flock 3/trace/mov 1||flock: line 3: missing field/
";

// Runs a command on a text, whose read with this number fails; in one piece, or in pieces of one byte.
fn run_pieces<T: Threads + Wait + Sync>(
    rt: &T,
    alloc: Global,
    command: &str,
    text: Vec<u8>,
    bytewise: bool,
    failing: u64,
) -> Result<Ended, AllocError> {
    let pieces = if bytewise { text.len() } else { 0 };
    let pieces = vec![in alloc; 1usize; pieces]?;
    let mut source = MemorySource::new(text, pieces, vec![in alloc; failing; 1]?);
    run_from(rt, alloc, command, &mut source, &mut PlannedGates::new())
}

// Whether a text comes out as its row says with these words, in one piece and in pieces of one byte.
fn comes_out<T: Threads + Wait + Sync>(
    rt: &T,
    alloc: Global,
    words: &str,
    text: Vec<u8>,
    status: &str,
    row: &str,
) -> Result<bool, AllocError> {
    let (report, told) = cut(row);
    let whole = run_pieces(rt, alloc, words, text.clone()?, false, 0)?;
    let pieces = run_pieces(rt, alloc, words, text, true, 0)?;
    Ok(whole.is_as(alloc, status, report, told)? && pieces.is_as(alloc, status, report, told)?)
}

// One runner serves a text, so its requests are served in their order.
#[test]
fn a_text_gives_its_report_or_its_first_fault(rt: HostRuntime) -> Result<(), Fail> {
    let alloc = rt.alloc();
    for (words, table) in [
        ("run --runners 1", TEXTS),
        ("run --runners 1 --buckets 1", TEXTS),
        ("run --table tree", FOR_ANOTHER_TABLE),
        ("run --table list", FOR_ANOTHER_TABLE),
    ] {
        for row in table.lines() {
            let (status, rest) = cut(row);
            let (text, rest) = cut(rest);
            let text = bytes_of(alloc, text)?;
            let comes_out = comes_out(&rt, alloc, words, text, status, rest)?;
            assert!(rt; comes_out, "{words}: {row}");
        }
    }
    Ok(())
}

const TEXT: &str = "flock 1/trace/ins 5 70/";

// What each prefix of the text gives. Each row: the shortest and the longest one, the status, the
// report, and what is told.
const PREFIXES: [(usize, usize, &str, &str); 7] = [
    (0, 6, "3", "|flock: line 1: no header/"),
    (7, 8, "0", "final 0/|"),
    (9, 12, "3", "|flock: line 2: unknown word/"),
    (13, 14, "0", "trace 0/final 0/|"),
    (15, 16, "3", "|flock: line 3: unknown word/"),
    (17, 20, "3", "|flock: line 3: missing field/"),
    (21, 23, "0", "trace 0/0 new/final 1/|"),
];

#[test]
fn each_prefix_is_served_or_refused(rt: HostRuntime) -> Result<(), Fail> {
    let alloc = rt.alloc();
    for (first, last, status, row) in PREFIXES {
        for length in first..=last {
            let mut text = bytes_of(alloc, TEXT)?;
            text.truncate(length);
            let comes_out = comes_out(&rt, alloc, "run --runners 1", text, status, row)?;
            assert!(rt; comes_out, "{length}");
        }
    }
    Ok(())
}

// Commands, what they read, and how they end where no read fails. What is checked is read whole first, so there a read
// that fails comes before a bad line.
const READ: [(&str, &str, &str, &str); 3] = [
    ("run", TEXT, "0", "trace 0/0 new/final 1/|"),
    ("check", "flock 1/report/final 0/", "0", "legal/|"),
    (
        "check",
        "foo/report/final 0/xxxx/",
        "3",
        "|flock: line 1: no header/",
    ),
];

// A text takes as many reads of one byte as it has bytes, and one that gives the end of the input.
#[test]
fn each_read_fails_in_turn(rt: HostRuntime) -> Result<(), Fail> {
    let alloc = rt.alloc();
    for (command, text, status, row) in READ {
        let (printed, told) = cut(row);
        let text = bytes_of(alloc, text)?;
        let reads = (text.len() as u64).saturating_add(1);
        for failing in 1..=reads {
            let ended = run_pieces(&rt, alloc, command, text.clone()?, true, failing)?;
            assert!(rt;
                ended.is(8, b"", b"flock: read fault\n"),
                "{command} at {failing}"
            );
        }
        let ended = run_pieces(&rt, alloc, command, text, true, reads.saturating_add(1))?;
        assert!(rt; ended.is_as(alloc, status, printed, told)?, "{command}");
    }
    Ok(())
}

// The place of the bad line is earlier than that of the read that fails.
#[test]
fn a_bad_line_before_a_failed_read_is_told(rt: HostRuntime) -> Result<(), Fail> {
    let text = bytes_of(rt.alloc(), "flock 1/foo/")?;
    let ended = run_pieces(&rt, rt.alloc(), "run", text, false, 2)?;
    assert!(rt; ended.is(3, b"", b"flock: line 2: unknown word\n"));
    Ok(())
}

/// A sink that takes one byte at a time of what it is given, and fails or takes nothing where the
/// sink behind it does.
#[derive(Drop)]
struct Narrow {
    behind: MemorySink,
}

impl Sink for Narrow {
    ghost held = { λ _. None };

    ghost faults = { λ sink. sink.behind.faults };

    fn write(&mut self, bytes: &[u8]) -> Result<usize, Failed> {
        match bytes.split_first() {
            Some((first, _)) => self.behind.write(&[*first]),
            None => Ok(0),
        }
    }
}

// Commands, what they read, and what they print.
const PRINTED: [(&str, &str, &str); 4] = [
    (
        "run",
        "flock 1/trace/ins 5 70/get 5/del 5/get 5/",
        "trace 0/0 new/1 val 70/2 gone/3 none/final 0/",
    ),
    ("check", "flock 1/report/final 0/", "legal/"),
    ("check", "flock 1/report/final 1/", "line 1: final/"),
    (
        "gen --seed=1 --traces 1 --length 3 --keys 100",
        "",
        "flock 1/trace/del 58/ins 15 150/get 27/",
    ),
];

// Runs a command over a sink with these faults, which takes one byte at a time.
fn run_narrow<T: Threads + Wait + Sync>(
    rt: &T,
    alloc: Global,
    command: &str,
    text: Vec<u8>,
    behind: MemorySink,
) -> Result<Ended, AllocError> {
    let words: Vec<&str> = command.split_whitespace().collect(alloc)?;
    let mut source = SureSource::new(text, Vec::new(alloc));
    let (mut sink, mut faults) = (Narrow { behind }, quiet_sink(alloc));
    let gates = &mut PlannedGates::new();
    let status = status_of(
        rt,
        alloc,
        &words,
        &mut source,
        &mut sink,
        &mut faults,
        gates,
    );
    Ok(Ended {
        status,
        printed: sink.behind.bytes().to_vec(alloc)?,
        told: faults.bytes().to_vec(alloc)?,
    })
}

// Whether a command whose write with this number fails, or takes nothing, ends with status 9 and
// leaves what the writes before it took of what it prints.
fn write_fails<T: Threads + Wait + Sync>(
    rt: &T,
    alloc: Global,
    command: &str,
    text: &[u8],
    taken: &[u8],
    failing: u64,
) -> Result<bool, AllocError> {
    let call = vec![in alloc; failing; 1]?;
    let fails = MemorySink::new(alloc, call.clone()?, Vec::new(alloc));
    let failed = run_narrow(rt, alloc, command, text.to_vec(alloc)?, fails)?;
    let takes_nothing = MemorySink::new(alloc, Vec::new(alloc), call);
    let stopped = run_narrow(rt, alloc, command, text.to_vec(alloc)?, takes_nothing)?;
    let told = b"flock: write fault\n";
    Ok(failed.is(9, taken, told) && stopped.is(9, taken, told))
}

// What is printed takes as many writes as it has bytes.
#[test]
fn each_write_fails_or_takes_nothing_in_turn(rt: HostRuntime) -> Result<(), Fail> {
    let alloc = rt.alloc();
    for (command, text, printed) in PRINTED {
        let (text, printed) = (bytes_of(alloc, text)?, bytes_of(alloc, printed)?);
        let mut taken = Vec::new(alloc);
        for byte in printed.iter() {
            let failing = (taken.len() as u64).saturating_add(1);
            let write_fails = write_fails(&rt, alloc, command, &text, &taken, failing)?;
            assert!(rt; write_fails, "{command} at {failing}");
            taken.push(*byte)?;
        }
    }
    Ok(())
}

#[test]
fn failing_faults_change_no_status(rt: HostRuntime) -> Result<(), Fail> {
    let alloc = rt.alloc();
    let mut source = SureSource::new(b"trace\n".to_vec(alloc)?, Vec::new(alloc));
    let mut sink = quiet_sink(alloc);
    let mut faults = MemorySink::new(alloc, vec![in alloc; 1u64; 1]?, Vec::new(alloc));
    let gates = &mut PlannedGates::new();
    let words = ["run"];
    let status = status_of(
        &rt,
        alloc,
        &words,
        &mut source,
        &mut sink,
        &mut faults,
        gates,
    );
    assert!(rt; status == 3 && faults.bytes().is_empty());
    Ok(())
}

#[test]
fn a_reader_is_a_source_and_a_writer_is_a_sink(rt: HostRuntime) -> Result<(), Fail> {
    let alloc = rt.alloc();
    let text = bytes_of(alloc, "flock 1/trace/")?;
    let mut source = StdSource::new(text.as_slice());
    let ended = run_from(&rt, alloc, "run", &mut source, &mut PlannedGates::new())?;
    assert!(rt; ended.is(0, b"trace 0\nfinal 0\n", b""));
    let mut written: Vec<u8> = Vec::new(alloc);
    let mut sink = StdSink::new(&mut written);
    let taken = sink.write(b"final 0\n");
    drop(sink);
    assert!(rt; taken.is_ok() && written.as_slice() == b"final 0\n".as_slice());
    Ok(())
}
