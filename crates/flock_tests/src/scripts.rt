//! Several runners: scripts by which they run beside one another, and reports that are legal whoever came first. In the
//! tables bars part the columns.
use crate::legal::sums_of;
use crate::program::{TABLES, bytes_of, cut, is_legal, run, run_from};
use body_terms::StepKind;
use flock_tool::threaded_runs::runner_gate::{Pause, ScriptedGates};
use flock_tool::trace_reader::SureSource;
use std::alloc::{AllocError, Global};
use std::sync::Wait;
use std::test::Fail;
use std::thread::Threads;

// Each row: the script, the words, the text and the report. In the script a runner waits at its first ask of one kind
// until another was asked with another kind, and halts where it waits in vain.
//
// First, runner 0 publishes and waits until runner 1 is through, and runner 1 enters only when it has: so runner 1
// meets the lock held and runs the section in it to its end. Workers of one thread wait in vain, in either order, and
// so do those of whom one holds a mutex meanwhile. Then runner 1 helps runner 0's section, and runner 2 helps runner
// 1's: three threads, each inside its attempt while the next one goes on. A reader that meets a lock held serves its
// request under it, and helps the section in it: it never reads what stands there meanwhile. Two readers go on while
// the other one is inside its read: both stamps are the same, so their order is that of the text, whoever came first.
// And a reader has loaded its cells and announced its read when another runner puts the key in: its second reading of
// the lock isn't the first one, so it serves the request under the lock.
const SCRIPTS: &str = "\
1 Entered 0 Hold, 0 Hold 1 Served|--runners 2|flock 1/trace/ins 5 70/get 5/trace/ins 5 80/|trace 0/0 new/2 val 70/trace 1/1 dup/final 1/
0 Hold 1 Served, 1 Entered 0 Hold, 1 Hold 2 Served, 2 Entered 1 Hold|--runners 3|flock 1/trace/ins 5 70/get 5/trace/ins 5 80/trace/get 5/|trace 0/0 new/3 val 70/trace 1/1 dup/trace 2/2 val 70/final 1/
1 Entered 0 Hold, 0 Hold 1 Served|--runners 2 --reads free|flock 1/trace/ins 5 70/get 5/trace/get 5/|trace 0/0 new/2 val 70/trace 1/1 val 70/final 1/
1 Entered 0 ClockLoad, 0 ClockLoad 1 Served|--runners 2 --reads free|flock 1/trace/get 5/trace/get 5/get 6/|trace 0/0 none/trace 1/1 none/2 none/final 0/
0 Entered 1 ClockLoad, 1 ClockLoad 0 Served|--runners 2 --reads free|flock 1/trace/ins 5 70/trace/get 5/|trace 0/0 new/trace 1/1 val 70/final 1/
";

fn kind_of(word: Option<&str>) -> StepKind {
    match word {
        Some("Entered") => StepKind::Entered,
        Some("Hold") => StepKind::Hold,
        Some("ClockLoad") => StepKind::ClockLoad,
        Some("NestedHold") => StepKind::NestedHold,
        Some("CellExchange") => StepKind::CellExchange,
        _ => StepKind::Served,
    }
}

fn runner_of(word: Option<&str>) -> u32 {
    word.unwrap_or("").parse().unwrap_or(0)
}

// The pauses of a script.
fn pauses_of(alloc: Global, script: &str) -> Result<Vec<Pause>, AllocError> {
    let mut pauses = Vec::new(alloc);
    for line in script.split(", ") {
        let mut words = line.split(' ');
        pauses.push(Pause {
            runner: runner_of(words.next()),
            at: kind_of(words.next()),
            until_runner: runner_of(words.next()),
            until: kind_of(words.next()),
        })?;
    }
    Ok(pauses)
}

// Whether a row's text under its script ends with status 0 and the row's report, on this table, and the program finds
// that report legal.
fn comes_out<T: Threads + Wait + Sync>(
    rt: &T,
    alloc: Global,
    row: &str,
    table: &str,
) -> Result<bool, AllocError> {
    let (script, row) = cut(row);
    let (words, row) = cut(row);
    let (text, report) = cut(row);
    let line = format!(in alloc; "run {words} --table {table}")?;
    let (text, report) = (bytes_of(alloc, text)?, bytes_of(alloc, report)?);
    let mut gates = ScriptedGates::new(alloc, pauses_of(alloc, script)?)?;
    let mut source = SureSource::new(text.clone()?, Vec::new(alloc));
    let ended = run_from(rt, alloc, &line, &mut source, &mut gates)?;
    Ok(ended.is(0, &report, b"") && is_legal(rt, alloc, &text, &report)?)
}

#[test]
fn runners_that_wait_inside_are_helped_and_readers_go_on(rt: HostRuntime) -> Result<(), Fail> {
    for row in SCRIPTS.lines() {
        for table in TABLES {
            let comes_out = comes_out(&rt, rt.alloc(), row, table)?;
            assert!(rt; comes_out, "{row} on {table}");
        }
    }
    Ok(())
}

// What `gen` makes, and how it is run: few keys under one lock, and many; with reads under their locks and without.
const CROWDS: &str = "\
--seed=1 --traces 2 --length 1 --keys 1|--runners 2
--seed=7 --traces 4 --length 1000 --keys 200|--runners 4
--seed=7 --traces 64 --length 16 --keys 4|--runners 16 --buckets 1
--seed=7 --traces 4 --length 1000 --keys 200|--runners 4 --reads free
--seed=7 --traces 64 --length 16 --keys 4|--runners 16 --buckets 1 --reads free
";

// Whether each request of this text is answered on each table, and the reports are legal.
fn are_served<T: Threads + Wait + Sync>(
    rt: &T,
    alloc: Global,
    words: &str,
    text: &[u8],
) -> Result<bool, AllocError> {
    for table in TABLES {
        let line = format!(in alloc; "run {words} --table {table}")?;
        let ended = run(rt, alloc, &line, text.to_vec(alloc)?)?;
        let is_whole = ended.status == 0 && !ended.report().contains("unserved");
        if !is_whole || !is_legal(rt, alloc, text, &ended.printed)? {
            return Ok(false);
        }
    }
    Ok(true)
}

// The same requests in format 2, where every second insertion sets its key instead, to a value that
// no other request gives.
fn with_puts(alloc: Global, text: &str) -> Result<Vec<u8>, AllocError> {
    let mut changed = b"flock 2\n".to_vec(alloc)?;
    for (number, line) in text.lines().enumerate().skip(1) {
        let key = line
            .strip_prefix("ins ")
            .and_then(|pair| pair.split_once(' '));
        let line = match key {
            Some((key, _)) if number % 2 == 0 => format!(in alloc; "put {key} {number}\n")?,
            _ => format!(in alloc; "{line}\n")?,
        };
        changed.extend_from_slice(line.as_bytes())?;
    }
    Ok(changed)
}

// Whether each request of what `gen` makes is answered, and the reports are legal; the same where keys are set beside
// that.
fn crowd_is_served<T: Threads + Wait + Sync>(
    rt: &T,
    alloc: Global,
    row: &str,
) -> Result<bool, AllocError> {
    let (plan, words) = cut(row);
    let maker = format!(in alloc; "gen {plan}")?;
    let made = run(rt, alloc, &maker, Vec::new(alloc))?;
    let puts = with_puts(alloc, made.report())?;
    let is_served = made.status == 0 && are_served(rt, alloc, words, &made.printed)?;
    Ok(is_served && are_served(rt, alloc, words, &puts)?)
}

#[test]
fn crowds_have_legal_reports(rt: HostRuntime) -> Result<(), Fail> {
    for row in CROWDS.lines() {
        let is_served = crowd_is_served(&rt, rt.alloc(), row)?;
        assert!(rt; is_served, "{row}");
    }
    Ok(())
}

// The same while keys are moved, on the hash table, which alone serves that. Runner 2 puts key 1 in, and runner 0
// publishes its `mov` and waits in it until runner 1 is through, which enters only then: so runner 1 meets a lock of
// the `mov` held and runs it to its end, before its own request, which needs the value where it was moved to. Runner 0
// waits once behind the exchange of its outer lock, once behind that of the nested one, and once behind its first
// store, while the map has neither key in its chains. In one bucket there is no nested lock. In the last row runner 1
// is helped, too.
const MOVE_SCRIPTS: &str = "\
0 Entered 2 Served, 1 Entered 0 Hold, 0 Hold 1 Served|--runners 3 --buckets 64|flock 3/trace/mov 1 2/get 1/get 2/trace/get 2/trace/ins 1 10/|trace 0/1 moved/3 none/4 val 10/trace 1/2 val 10/trace 2/0 new/final 1/
0 Entered 2 Served, 1 Entered 0 Hold, 0 Hold 1 Served|--runners 3 --buckets 64|flock 3/trace/mov 1 2/get 1/get 2/trace/mov 2 1/trace/ins 1 10/|trace 0/1 moved/3 val 10/4 none/trace 1/2 moved/trace 2/0 new/final 1/
0 Entered 2 Served, 1 Entered 0 NestedHold, 0 NestedHold 1 Served|--runners 3 --buckets 64|flock 3/trace/mov 1 2/get 1/get 2/trace/mov 2 1/trace/ins 1 10/|trace 0/1 moved/3 val 10/4 none/trace 1/2 moved/trace 2/0 new/final 1/
0 Entered 2 Served, 1 Entered 0 CellExchange, 0 CellExchange 1 Served|--runners 3 --buckets 64|flock 3/trace/mov 1 2/get 1/get 2/trace/mov 2 1/trace/ins 1 10/|trace 0/1 moved/3 val 10/4 none/trace 1/2 moved/trace 2/0 new/final 1/
0 Entered 2 Served, 1 Entered 0 Hold, 0 Hold 1 Served|--runners 3 --buckets 1|flock 3/trace/mov 1 2/get 1/get 2/trace/mov 2 1/trace/ins 1 10/|trace 0/1 moved/3 val 10/4 none/trace 1/2 moved/trace 2/0 new/final 1/
0 Entered 2 Served, 1 Entered 0 CellExchange, 0 CellExchange 1 Served|--runners 3 --buckets 1|flock 3/trace/mov 1 2/get 1/get 2/trace/mov 2 1/trace/ins 1 10/|trace 0/1 moved/3 val 10/4 none/trace 1/2 moved/trace 2/0 new/final 1/
0 Entered 2 Served, 1 Entered 0 Hold, 0 Hold 1 Served, 1 Hold 3 Served, 3 Entered 1 Hold|--runners 4 --buckets 64|flock 3/trace/mov 1 2/get 1/get 2/trace/mov 2 1/trace/ins 1 10/trace/ins 2 20/|trace 0/1 moved/4 val 10/5 val 20/trace 1/2 moved/trace 2/0 new/trace 3/3 new/final 2/
";

#[test]
fn runners_that_wait_while_they_move_a_key_are_helped(rt: HostRuntime) -> Result<(), Fail> {
    for row in MOVE_SCRIPTS.lines() {
        let comes_out = comes_out(&rt, rt.alloc(), row, "hash")?;
        assert!(rt; comes_out, "{row}");
    }
    Ok(())
}

// Runners that move the same keys to and fro, many times, with reads between. Each trace ends with reads of all keys.
// Each row: the words, how many pairs are left, and the text. Where a key may be moved to before it is inserted, any
// number may be left.
const MOVES: &str = "\
--runners 2|1|flock 3/trace/ins 1 1/mov 1 2/mov 2 1/get 1/get 2/trace/mov 1 2/mov 2 1/get 1/get 2/
--runners 2 --buckets 1|1|flock 3/trace/ins 1 1/mov 1 2/mov 2 1/get 1/get 2/trace/mov 1 2/mov 2 1/get 1/get 2/
--runners 2 --reads free|any|flock 3/trace/ins 1 10/ins 2 20/{100*mov 1 3/mov 2 4/get 3/mov 3 2/mov 4 1/}get 1/get 2/get 3/get 4/trace/{100*mov 3 1/get 1/mov 4 2/mov 1 4/mov 2 3/}get 1/get 2/get 3/get 4/
--runners 2 --buckets 4|any|flock 3/trace/ins 1 10/ins 2 20/{100*mov 1 3/mov 2 4/get 3/mov 3 2/mov 4 1/}get 1/get 2/get 3/get 4/trace/{100*mov 3 1/get 1/mov 4 2/mov 1 4/mov 2 3/}get 1/get 2/get 3/get 4/
--runners 2 --buckets 1|any|flock 3/trace/ins 1 10/ins 2 20/{100*mov 1 3/mov 2 4/get 3/mov 3 2/mov 4 1/}get 1/get 2/get 3/get 4/trace/{100*mov 3 1/get 1/mov 4 2/mov 1 4/mov 2 3/}get 1/get 2/get 3/get 4/
--runners 16 --buckets 4|any|flock 3/trace/ins 1 10/get 1/get 2/get 3/get 4/trace/ins 2 20/get 1/get 2/get 3/get 4/trace/ins 3 30/get 1/get 2/get 3/get 4/{61*trace/mov 1 4/get 4/mov 2 1/mov 3 2/mov 4 3/get 1/get 2/get 3/get 4/}
";

// Whether what is read behind the last request that isn't a `get` comes to the sum of the values that were put in.
fn values_are_there(alloc: Global, text: &[u8], report: &str) -> Result<bool, AllocError> {
    match sums_of(alloc, text, report)? {
        Some(sums) => Ok(sums.read == sums.put_in),
        None => Ok(false),
    }
}

// Whether each request of a row is served, the report is legal, and the values are there in the end.
fn moves_are_served<T: Threads + Wait + Sync>(
    rt: &T,
    alloc: Global,
    row: &str,
) -> Result<bool, AllocError> {
    let (words, row) = cut(row);
    let (size, text) = cut(row);
    let (line, last) = (
        format!(in alloc; "run {words}")?,
        format!(in alloc; "\nfinal {size}\n")?,
    );
    let text = bytes_of(alloc, text)?;
    let ended = run(rt, alloc, &line, text.clone()?)?;
    let is_whole = ended.status == 0 && (size == "any" || ended.report().ends_with(&*last));
    let are_there = values_are_there(alloc, &text, ended.report())?;
    Ok(is_whole && are_there && is_legal(rt, alloc, &text, &ended.printed)?)
}

#[test]
fn moved_values_are_there_in_the_end(rt: HostRuntime) -> Result<(), Fail> {
    for row in MOVES.lines() {
        let is_served = moves_are_served(&rt, rt.alloc(), row)?;
        assert!(rt; is_served, "{row}");
    }
    Ok(())
}
