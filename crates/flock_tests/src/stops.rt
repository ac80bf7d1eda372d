//! Rows in which a runner is stopped at an ask of its gate, each ask in turn. Behind such a stop
//! the keeper settles the table: it runs the section to its end that stands in a lock word, so the
//! report has the reply of each request that was published before the stop.

use crate::legal::sums_of;
use crate::program::{Ended, TABLES, bytes_of, is_legal, run};
use std::alloc::{AllocError, Global};
use std::process::Abort;
use std::sync::Wait;
use std::test::Fail;
use std::thread::Threads;

// The stops of the one runner. Each row: the table, the first and the last ask at which the runner
// stops, the text, and the report. A request is answered from the ask on that comes behind the
// exchange by which its section is published. Of the keys that are moved 1 and 56 lie in one bucket, 1 and 2 in two.
const STOPS: &str = "\
hash 1 4|flock 1/trace/get 1/|trace 0/- unserved/final 0/
hash 5 28|flock 1/trace/get 1/|trace 0/0 none/final 0/
tree 1 6|flock 1/trace/get 1/|trace 0/- unserved/final 0/
tree 7 32|flock 1/trace/get 1/|trace 0/0 none/final 0/
hash 1 4|flock 1/trace/ins 5 70/|trace 0/- unserved/final 0/
hash 5 43|flock 1/trace/ins 5 70/|trace 0/0 new/final 1/
tree 1 6|flock 1/trace/ins 5 70/|trace 0/- unserved/final 0/
tree 7 55|flock 1/trace/ins 5 70/|trace 0/0 new/final 1/
hash 1 4|flock 1/trace/ins 5 70/del 5/|trace 0/- unserved/- unserved/final 0/
hash 5 49|flock 1/trace/ins 5 70/del 5/|trace 0/0 new/- unserved/final 1/
hash 50 79|flock 1/trace/ins 5 70/del 5/|trace 0/0 new/1 gone/final 0/
tree 1 6|flock 1/trace/ins 5 70/del 5/|trace 0/- unserved/- unserved/final 0/
tree 7 64|flock 1/trace/ins 5 70/del 5/|trace 0/0 new/- unserved/final 1/
tree 65 117|flock 1/trace/ins 5 70/del 5/|trace 0/0 new/1 gone/final 0/
hash 5 48|flock 2/trace/put 5 70/put 5 80/|trace 0/0 new/- unserved/final 1/
hash 49 76|flock 2/trace/put 5 70/put 5 80/|trace 0/0 new/1 was 70/final 1/
tree 7 63|flock 2/trace/put 5 70/put 5 80/|trace 0/0 new/- unserved/final 1/
tree 64 103|flock 2/trace/put 5 70/put 5 80/|trace 0/0 new/1 was 70/final 1/
list 6 50|flock 2/trace/put 5 70/put 5 80/|trace 0/0 new/- unserved/final 1/
list 51 110|flock 2/trace/put 5 70/put 5 80/|trace 0/0 new/1 was 70/final 1/
hash 5 52|flock 3/trace/ins 1 10/mov 1 2/|trace 0/0 new/- unserved/final 1/
hash 53 114|flock 3/trace/ins 1 10/mov 1 2/|trace 0/0 new/1 moved/final 1/
hash 53 119|flock 3/trace/ins 1 10/mov 1 2/get 2/|trace 0/0 new/1 moved/- unserved/final 1/
hash 120 143|flock 3/trace/ins 1 10/mov 1 2/get 2/|trace 0/0 new/1 moved/2 val 10/final 1/
hash 5 52|flock 3/trace/ins 1 10/mov 1 56/|trace 0/0 new/- unserved/final 1/
hash 53 93|flock 3/trace/ins 1 10/mov 1 56/|trace 0/0 new/1 moved/final 1/
hash 53 98|flock 3/trace/ins 1 10/mov 1 56/get 56/|trace 0/0 new/1 moved/- unserved/final 1/
hash 99 122|flock 3/trace/ins 1 10/mov 1 56/get 56/|trace 0/0 new/1 moved/2 val 10/final 1/
";

// The same where the requests that only read are served without a lock: such a request is answered from the ask on that
// comes behind the exchange of its stamp.
const READ_STOPS: &str = "\
hash 1 9|flock 1/trace/get 1/|trace 0/- unserved/final 0/
hash 10 11|flock 1/trace/get 1/|trace 0/0 none/final 0/
tree 1 12|flock 1/trace/get 1/|trace 0/- unserved/final 0/
tree 13 14|flock 1/trace/get 1/|trace 0/0 none/final 0/
";

// Runs a text with these words, and a stop of runner 0 at this ask.
fn run_stopped<T: Threads + Wait + Sync>(
    rt: &T,
    alloc: Global,
    words: &str,
    ask: u64,
    text: &[u8],
) -> Result<Ended, AllocError> {
    let line = format!(in alloc; "run {words} --halt 0:{ask}")?;
    run(rt, alloc, &line, text.to_vec(alloc)?)
}

// Whether the status and the line are those of a run in which so many requests are unserved.
fn tells_unserved(alloc: Global, ended: &Ended) -> Result<bool, AllocError> {
    let unserved = ended.report().matches("- unserved\n").count();
    if unserved == 0 {
        return Ok(ended.status == 0 && ended.told.is_empty());
    }
    let told = format!(in alloc; "flock: halted, {unserved} unserved\n")?;
    Ok(ended.status == 1 && ended.told.as_slice() == told.as_bytes())
}

// What stands before the first of these in a row, and what behind it.
fn cut(row: &str, mark: char) -> (&str, &str) {
    row.split_once(mark).unwrap_or((row, ""))
}

// Whether a row comes out as it says at each of its asks, with these words for how reads are served.
fn row_stops<T: Abort + Threads + Wait + Sync>(
    rt: &T,
    alloc: Global,
    row: &str,
    reads: &str,
) -> Result<(), Fail> {
    let (stops, texts) = cut(row, '|');
    let (table, asks) = cut(stops, ' ');
    let (first, last) = cut(asks, ' ');
    let (text, report) = cut(texts, '|');
    let (text, report) = (bytes_of(alloc, text)?, bytes_of(alloc, report)?);
    let words = format!(in alloc; "--table {table} --runners 1 --reads {reads}")?;
    for ask in first.parse::<u64>()?..=last.parse::<u64>()? {
        let ended = run_stopped(rt, alloc, &words, ask, &text)?;
        assert!(rt; ended.printed == report, "{row} at {ask}");
        assert!(rt; tells_unserved(alloc, &ended)?, "{row} at {ask}");
    }
    assert!(rt; is_legal(rt, alloc, &text, &report)?, "{row}");
    Ok(())
}

#[test]
fn one_runner_stops_at_each_ask(rt: HostRuntime) -> Result<(), Fail> {
    for row in STOPS.lines() {
        row_stops(&rt, rt.alloc(), row, "lock")?;
    }
    for row in READ_STOPS.lines() {
        row_stops(&rt, rt.alloc(), row, "free")?;
    }
    Ok(())
}

// Two runners, of which the first one stops: their text, the words, and the last ask at which it stops.
type Pair = (&'static str, &'static str, u64);

// Two runners on one key, two that set it, two that put their keys in and take them out, one that reads a key which the
// first one puts in, and one that puts a key in which the first one reads.
const PAIRS: [Pair; 5] = [
    ("flock 1/trace/ins 5 70/trace/ins 5 80/", "--reads lock", 60),
    (
        "flock 2/trace/put 5 70/put 5 71/trace/put 5 80/get 5/",
        "--reads lock",
        120,
    ),
    (
        "flock 1/trace/ins 2 2/del 2/trace/ins 1 1/del 1/",
        "--reads lock",
        140,
    ),
    (
        "flock 1/trace/ins 5 70/del 5/trace/get 5/get 5/",
        "--reads free",
        120,
    ),
    (
        "flock 1/trace/get 5/get 5/trace/ins 5 80/get 5/",
        "--reads free",
        25,
    ),
];

// Two runners that move the same keys to and fro, among many buckets and in one, and in four beside reads without a
// lock; both end with reads of all keys. The asks are those of an insertion and of the `mov` behind it.
const MOVING: [Pair; 3] = [
    (
        "flock 3/trace/ins 1 10/mov 1 2/mov 2 1/get 1/get 2/get 3/get 4/trace/ins 3 30/mov 3 2/mov 1 3/mov 2 4/get 1/get 2/get 3/get 4/",
        "--buckets 64",
        114,
    ),
    (
        "flock 3/trace/ins 1 10/mov 1 2/mov 2 1/get 1/get 2/get 3/get 4/trace/ins 3 30/mov 3 2/mov 1 3/mov 2 4/get 1/get 2/get 3/get 4/",
        "--buckets 1",
        93,
    ),
    (
        "flock 3/trace/ins 1 10/mov 1 2/mov 2 1/get 1/get 2/get 3/trace/get 1/get 2/mov 1 3/get 1/get 2/get 3/",
        "--buckets 4 --reads free",
        114,
    ),
];

// Whether each request was served behind this line of the report, the report is legal, and what was told is so.
fn others_are_served<T: Threads + Wait + Sync>(
    rt: &T,
    alloc: Global,
    text: &[u8],
    ended: &Ended,
    line: &str,
) -> Result<bool, AllocError> {
    let others = match ended.report().split_once(line) {
        Some((_, others)) => others,
        None => "unserved",
    };
    let are_served = !others.contains("unserved") && tells_unserved(alloc, ended)?;
    Ok(are_served && is_legal(rt, alloc, text, &ended.printed)?)
}

// Whether, if the last request that isn't a `get` is the second one's, what the second one reads behind it comes to the
// sum of the values that were put in. Behind one of the first runner, which stops, nobody may read.
fn values_are_there(alloc: Global, text: &[u8], report: &str) -> Result<bool, AllocError> {
    match sums_of(alloc, text, report)? {
        Some(sums) => Ok(sums.trace == 0 || sums.read == sums.put_in),
        None => Ok(false),
    }
}

// Wherever the first runner of a pair stops on this table, the second one is served, and the report is legal. Where
// they move their keys, the values that were put in are still there.
fn second_ones_are_served<T: Abort + Threads + Wait + Sync>(
    rt: &T,
    alloc: Global,
    table: &str,
    pairs: &[Pair],
) -> Result<(), AllocError> {
    for (row, more, last) in pairs {
        let text = bytes_of(alloc, row)?;
        let moves = row.starts_with("flock 3");
        let words = format!(in alloc; "--table {table} --runners 2 {more}")?;
        for ask in 1..=*last {
            let ended = run_stopped(rt, alloc, &words, ask, &text)?;
            let are_served = others_are_served(rt, alloc, &text, &ended, "trace 1\n")?;
            assert!(rt; are_served, "{row} on {table} at {ask}");
            let are_there = !moves || values_are_there(alloc, &text, ended.report())?;
            assert!(rt; are_there, "{row} at {ask}");
        }
    }
    Ok(())
}

#[test]
fn whoever_does_not_stop_is_served(rt: HostRuntime) -> Result<(), Fail> {
    second_ones_are_served(&rt, rt.alloc(), "hash", &PAIRS)?;
    second_ones_are_served(&rt, rt.alloc(), "tree", &PAIRS)?;
    Ok(())
}

// The list by itself, for the sake of a test's time.
#[test]
fn whoever_does_not_stop_is_served_on_the_list(rt: HostRuntime) -> Result<(), Fail> {
    second_ones_are_served(&rt, rt.alloc(), "list", &PAIRS)?;
    Ok(())
}

#[test]
fn whoever_does_not_stop_while_keys_are_moved_is_served(rt: HostRuntime) -> Result<(), Fail> {
    second_ones_are_served(&rt, rt.alloc(), "hash", &MOVING)?;
    Ok(())
}

// Four traces on 50 keys.
const FOUR: &str = "gen --seed=7 --traces 4 --length 200 --keys 50";

// Whether the others are served, where these runners of four stop, on this table.
fn four_are_served<T: Threads + Wait + Sync>(
    rt: &T,
    alloc: Global,
    made: &Ended,
    table: &str,
    halt: &str,
    others: &str,
) -> Result<bool, AllocError> {
    let inserts = made.report().matches("ins ").count();
    let nodes = inserts.saturating_mul(2).saturating_add(2);
    let line = format!(in alloc;
        "run --table {table} --runners 4 --sections 5 --nodes {nodes} --halt {halt}"
    )?;
    let ended = run(rt, alloc, &line, made.printed.clone()?)?;
    others_are_served(rt, alloc, &made.printed, &ended, others)
}

// Wherever one of four runners stops, or three of them, each request of the others is served: each runner has one
// descriptor more than there are runners, and node slots for all insertions, so it doesn't matter that none of those in
// limbo comes back. So it is proved of every run; here it is seen of some.
#[test]
fn others_are_served_beside_those_that_stop(rt: HostRuntime) -> Result<(), Fail> {
    let alloc = rt.alloc();
    let made = run(&rt, alloc, FOUR, Vec::new(alloc))?;
    for table in TABLES {
        for ask in 1..=40 {
            let one = format!(in alloc; "0:{ask}")?;
            let are_served = four_are_served(&rt, alloc, &made, table, &one, "trace 1\n")?;
            assert!(rt; are_served, "{table} {one}");
            let three = format!(in alloc; "0:{ask},1:{ask},2:{ask}")?;
            let are_served = four_are_served(&rt, alloc, &made, table, &three, "trace 3\n")?;
            assert!(rt; are_served, "{table} {three}");
        }
    }
    Ok(())
}
