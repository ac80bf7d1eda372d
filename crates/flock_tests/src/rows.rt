//! Tables of commands. Each row: the status and the words, the text, what is printed, and what is told. `program` says
//! what the signs in a text stand for.
use crate::program::{Ended, bytes_of, check, cut, is_legal, run};
use std::alloc::{AllocError, Global};
use std::process::Abort;
use std::sync::Wait;
use std::test::Fail;
use std::thread::Threads;

// Rows that come out alike on each table, served by one runner. The last four have few node slots, which are used
// again: a pair that goes in and out, a key that is set again and again, for which the tree makes a leaf each time and
// the list a node, and slots whose cells come to the last version, which are worn once they come back.
const ON_EACH_TABLE: &str = "\
0 run|flock 1/trace/ins 5 70/get 5/del 5/get 5/|trace 0/0 new/1 val 70/2 gone/3 none/final 0/|
0 run --sections 1|flock 1/trace/ins 5 70/get 5/del 5/get 5/|trace 0/0 new/1 val 70/2 gone/3 none/final 0/|
0 run|flock 1/trace/ins 5 70/ins 5 80/get 5/|trace 0/0 new/1 dup/2 val 70/final 1/|
0 run|flock 2/trace/put 5 70/put 5 80/get 5/del 5/put 5 90/|trace 0/0 new/1 was 70/2 val 80/3 gone/4 new/final 1/|
0 run --buckets 1|flock 2/trace/ins 1 1/ins 2 2/put 1 3/put 2 4/ins 2 5/get 1/get 2/|trace 0/0 new/1 new/2 was 1/3 was 2/4 dup/5 val 3/6 val 4/final 2/|
0 run --runners 1|flock 1/trace/ins 1 10/trace/get 1/|trace 0/0 new/trace 1/1 val 10/final 1/|
0 run --buckets 1|flock 1/trace/ins 1 1/ins 2 2/ins 3 3/del 2/get 1/get 3/|trace 0/0 new/1 new/2 new/3 gone/4 val 1/5 val 3/final 2/|
0 run|flock 1/trace/ins 2 2/ins 1 1/ins 3 3/del 1/get 2/get 3/|trace 0/0 new/1 new/2 new/3 gone/4 val 2/5 val 3/final 2/|
1 run --runners 2 --halt 1:1|flock 1/trace/ins 1 1/get 1/trace/get 1/|trace 0/0 new/1 val 1/trace 1/- unserved/final 1/|flock: halted, 1 unserved/
4 run --runners 2 --nodes 131073|flock 1/trace/ins 1 10/trace/get 1/||flock: limit: nodes 262146/
5 run --nodes 0|flock 1/trace/get 1/|trace 0/- unserved/final 0/|flock: slots: runner 0 node free 0 limbo 0 worn 0/
6 run --buckets 1 --version-max 5|flock 1/trace/get 1/get 1/get 1/|trace 0/0 none/1 none/- unserved/final 0/|flock: versions: place 0 value 0 version 5/
6 run --reads lock --buckets 1 --version-max 5|flock 1/trace/get 1/get 1/get 1/|trace 0/0 none/1 none/- unserved/final 0/|flock: versions: place 0 value 0 version 5/
0 run --reads free --buckets 1 --version-max 5|flock 1/trace/get 1/get 1/get 1/|trace 0/0 none/1 none/2 none/final 0/|
0 run --reads free --nodes 0|flock 1/trace/get 1/|trace 0/0 none/final 0/|
0 run --reads free|flock 1/trace/get 1/ins 1 5/get 1/get 1/|trace 0/0 none/1 new/2 val 5/3 val 5/final 1/|
0 run --reads free --runners 1|flock 2/trace/ins 1 10/get 2/trace/get 1/get 1/put 1 20/get 1/del 1/get 1/|trace 0/0 new/1 none/trace 1/2 val 10/3 val 10/4 was 10/5 val 20/6 gone/7 none/final 0/|
1 run --reads free --runners 2 --halt 1:1|flock 1/trace/ins 1 1/get 1/trace/get 1/|trace 0/0 new/1 val 1/trace 1/- unserved/final 1/|flock: halted, 1 unserved/
5 run --reads free --nodes 0|flock 1/trace/get 1/ins 1 1/get 1/|trace 0/0 none/- unserved/- unserved/final 0/|flock: slots: runner 0 node free 0 limbo 0 worn 0/
0 run --nodes 18|flock 1/trace/{100*ins 1 1/del 1/}|trace 0/{100*& new/& gone/}final 0/|
0 run --nodes 18|flock 2/trace/put 1 0/{100*put 1 @/put 1 0/}|trace 0/& new/{100*& was 0/& was @/}final 1/|
";

// On the tree each pair takes two node slots, on the hash table and on the list one. A `get` that is read meets a lock
// that is worn out: a runner that is alone ends there, and one of two attempts it first. The commands of the other rows
// run nothing, or on the hash table alone; the last ones are at the limits on traces, requests and bytes, from above
// and all from below at once.
const ON_ONE_TABLE: &str = "\
5 run --table tree --nodes 4|flock 1/trace/ins 1 1/ins 2 2/ins 3 3/|trace 0/0 new/1 new/- unserved/final 2/|flock: slots: runner 0 node free 0 limbo 0 worn 0/
0 run --table hash --nodes 4|flock 1/trace/ins 1 1/ins 2 2/ins 3 3/|trace 0/0 new/1 new/2 new/final 3/|
0 run --table list --nodes 4|flock 1/trace/ins 2 2/ins 1 1/ins 3 3/|trace 0/0 new/1 new/2 new/final 3/|
6 run --buckets 4096 --nodes 3 --version-max 5|flock 1/trace/{20*ins @ @/del @/}|*|flock: versions: runner 0 node free 1 limbo 0 worn 1/
6 run --reads free --buckets 1 --version-max 3|flock 1/trace/ins 1 1/get 1/get 2/|trace 0/0 new/- unserved/- unserved/final 1/|flock: versions: place 0 value 0 version 3/
6 run --reads free --runners 2 --buckets 1 --version-max 3|flock 1/trace/ins 1 1/get 1/trace/|trace 0/0 new/- unserved/trace 1/final 1/|flock: versions: place 0 value 0 version 3/
6 run --table tree --reads free --runners 1 --version-max 3|flock 1/trace/ins 1 1/get 1/|trace 0/0 new/- unserved/final 1/|flock: versions: place 20 value 0 version 2/
0 run --table hash --sections 4 --nodes 4|flock 1/trace/ins 1 1/del 1/ins 2 2/|trace 0/0 new/1 gone/2 new/final 1/|
0 run --runners 1 --halt 1:1|flock 1/trace/get 1/|trace 0/0 none/final 0/|
5 run --nodes 4|flock 1/trace/ins 1 1/ins 2 2/ins 3 3/ins 4 4/|trace 0/0 new/1 new/2 new/- unserved/final 3/|flock: slots: runner 0 node free 1 limbo 0 worn 0/
2 run --nodes 1 --nodes 1|flock 1/||flock: words refused/
2 run --reads none|flock 1/||flock: words refused/
2 walk|flock 1/||flock: words refused/
2 load --seed=1 --traces 1 --length 3 --keys 100 --halt 0:1|||flock: words refused/
0 gen --seed=1 --traces 1 --length 3 --keys 100||flock 1/trace/del 58/ins 15 150/get 27/|
0 gen --seed=1 --traces=0 --length=3 --keys=1||flock 1/|
4 gen --seed=1 --traces 2 --length 65537 --keys 1|||flock: limit: requests 131074/
0 load --seed=1 --traces 1 --length 3 --keys 100||requests 3/new 1/dup 0/val 0/gone 0/none 2/final 1/|
0 load --seed=1 --traces 1 --length 3 --keys 100 --reads free||requests 3/new 1/dup 0/val 0/gone 0/none 2/final 1/|
0 load --seed=1 --traces 0 --length 3 --keys 1||requests 0/new 0/dup 0/val 0/gone 0/none 0/final 0/|
4 load --seed=1 --traces 2 --length 65537 --keys 1 --nodes 131073|||flock: limit: requests 131074/
4 load --seed=1 --traces 2 --length 1 --keys 1 --nodes 131073|||flock: limit: nodes 262146/
5 load --seed=1 --traces 1 --length 3 --keys 100 --nodes=0|||flock: slots: runner 0 node free 0 limbo 0 worn 0/
6 load --seed=1 --traces 1 --length 3 --keys 1 --buckets 1 --version-max 3|||flock: versions: place 0 value 0 version 3/
0 check|flock 1/trace/ins 5 70/ins 5 80/get 5/report/trace 0/0 new/1 dup/2 val 70/final 1/|legal/|
10 check|flock 1/trace/ins 5 70/ins 5 80/get 5/report/trace 0/0 new/1 dup/2 val 80/final 1/|line 4: reply/|
10 check|flock 1/trace/ins 5 70/ins 5 80/get 5/report/trace 0/0 new/2 dup/1 val 70/final 1/|line 4: rank/|
10 check|flock 1/trace/ins 5 70/ins 5 80/get 5/report/trace 0/0 new/- unserved/1 val 70/final 1/|line 4: rank/|
0 check|flock 1/trace/ins 5 70/ins 5 80/get 5/report/trace 0/0 new/- unserved/- unserved/final 1/|legal/|
10 check|flock 1/trace/ins 5 70/ins 5 80/get 5/report/trace 0/0 new/1 dup/2 val 70/final 2/|line 5: final/|
10 check|flock 1/trace/ins 5 70/ins 5 80/get 5/report/trace 0/0 new/1 dup/2 val 70/|line 5: form/|
0 check|flock 1/trace/ins 5 70/get 5/del 5/get 5/report/trace 0/0 new/1 val 70/- unserved/- unserved/final 1/|legal/|
10 check|flock 1/trace/ins 5 70/report/|line 1: form/|
10 check|flock 1/report/final 0/report/|line 2: form/|
0 check|flock 1/\t report ^/final 0/|legal/|
3 check|flock 1/||flock: line 2: no report/
3 check|flock 1/trace||flock: line 3: no report/
3 check|||flock: line 1: no header/
3 check|report/final 0/||flock: line 1: no header/
3 check|flock 1/get 1/report/final 0/||flock: line 2: request before trace/
2 check --table hash|flock 1/report/final 0/||flock: words refused/
4 run|flock 1/{65*trace/}||flock: limit: traces 65/
4 run|flock 1/trace/{131073*get 1/}||flock: limit: requests 131073/
4 run|flock 1/#{4194296*x}||flock: limit: bytes 4194305/
3 run|walk/{4194300*x}||flock: line 1: no header/
4 check|flock 1/#{4194295*x}/report/final 0/||flock: limit: bytes 4194305/
10 check|flock 1/#{4194294*x}/report/final 0/{4194289*x}|line 2: form/|
4 check|flock 1/#{4194294*x}/report/final 0/{4194290*x}||flock: limit: bytes 8388609/
5 run --nodes 0 --runners 1|flock 1/{63*trace/}trace/{131072*get 1/}#{3407478*x}/|{63*trace &/}trace 63/{131072*- unserved/}final 0/|flock: slots: runner 0 node free 0 limbo 0 worn 0/
";

// Texts of format 3, which only the hash table serves: among 64 buckets, in one, and, where the place counts, in the
// middle of a chain; with few node slots, of which a moved pair takes one more until the one that it had is free again;
// with a lock's word that is worn out. Of 64 buckets key 1 lies in number 39, whose lock stands at place 117, and key 2
// in number 15, whose lock stands at 45: a `mov` between them reads both locks, whichever way it goes, the lower one
// first. Behind these rows what is told where the words name another table, which comes behind the faults of a text and
// before its node slots.
const MOVES: &str = "\
0 run|flock 3/|final 0/|
0 run|flock 3/trace/ins 1 10/mov 1 2/get 1/get 2/mov 1 3/mov 2 2/|trace 0/0 new/1 moved/2 none/3 val 10/4 none/5 dup/final 1/|
0 run --buckets 1|flock 3/trace/ins 1 10/mov 1 2/get 1/get 2/mov 1 3/mov 2 2/|trace 0/0 new/1 moved/2 none/3 val 10/4 none/5 dup/final 1/|
0 run --table hash --reads free|flock 3/trace/ins 1 10/mov 1 2/get 1/get 2/mov 1 3/mov 2 2/|trace 0/0 new/1 moved/2 none/3 val 10/4 none/5 dup/final 1/|
0 run|flock 3/trace/ins 1 10/ins 2 20/mov 1 2/mov 2 1/put 2 21/mov 2 3/get 3/|trace 0/0 new/1 new/2 dup/3 dup/4 was 20/5 moved/6 val 21/final 2/|
0 run --buckets 1|flock 3/trace/ins 1 1/ins 2 2/ins 3 3/mov 2 4/get 2/get 4/mov 3 2/mov 1 3/del 4/get 2/get 3/|trace 0/0 new/1 new/2 new/3 moved/4 none/5 val 2/6 moved/7 moved/8 gone/9 val 3/10 val 1/final 2/|
0 run --runners 1|flock 3/trace/ins 1 10/mov 3 1/trace/mov 1 3/get 3/|trace 0/0 new/1 none/trace 1/2 moved/3 val 10/final 1/|
0 run --nodes 18|flock 3/trace/ins 1 10/{100*mov 1 2/mov 2 1/}get 1/|trace 0/& new/{100*& moved/& moved/}201 val 10/final 1/|
0 run --buckets 1 --nodes 18|flock 3/trace/ins 1 10/{100*mov 1 2/mov 2 1/}get 1/|trace 0/& new/{100*& moved/& moved/}201 val 10/final 1/|
1 run --runners 2 --halt 1:1|flock 3/trace/ins 1 1/trace/mov 1 2/|trace 0/0 new/trace 1/- unserved/final 1/|flock: halted, 1 unserved/
6 run --buckets 1 --version-max 5|flock 3/trace/mov 1 2/mov 1 2/mov 1 2/|trace 0/0 none/1 none/- unserved/final 0/|flock: versions: place 0 value 0 version 5/
6 run --buckets 64 --version-max 5|flock 3/trace/get 2/get 2/mov 1 2/|trace 0/0 none/1 none/- unserved/final 0/|flock: versions: place 45 value 0 version 5/
6 run --buckets 64 --version-max 5|flock 3/trace/get 1/get 1/mov 1 2/|trace 0/0 none/1 none/- unserved/final 0/|flock: versions: place 117 value 0 version 5/
6 run --buckets 64 --version-max 5|flock 3/trace/get 1/get 1/get 2/get 2/mov 1 2/|trace 0/0 none/1 none/2 none/3 none/- unserved/final 0/|flock: versions: place 45 value 0 version 5/
6 run --buckets 64 --version-max 5|flock 3/trace/get 1/get 1/get 2/get 2/mov 2 1/|trace 0/0 none/1 none/2 none/3 none/- unserved/final 0/|flock: versions: place 45 value 0 version 5/
4 run --runners 2 --nodes 131073|flock 3/trace/ins 1 10/trace/get 1/||flock: limit: nodes 262146/
0 check|flock 3/trace/ins 1 10/mov 1 2/get 2/report/trace 0/0 new/1 moved/2 val 10/final 1/|legal/|
10 check|flock 3/trace/ins 1 10/mov 1 2/get 2/report/trace 0/0 new/1 moved/2 none/final 1/|line 4: reply/|
2 run --table tree|flock 3/trace/ins 1 10/mov 1 2/get 1/get 2/mov 1 3/mov 2 2/||flock: words refused/
2 run --table list|flock 3/trace/ins 1 10/mov 1 2/get 1/get 2/mov 1 3/mov 2 2/||flock: words refused/
2 run --table tree|flock 3/||flock: words refused/
2 run --table list --runners 2 --nodes 131073|flock 3/trace/ins 1 10/trace/get 1/||flock: words refused/
3 run --table tree|flock 3/trace/mov 1 2/mov 1/||flock: line 4: missing field/
3 run --table list|flock 4/||flock: line 1: no header/
";

// Whether a row comes out as it says, with these words behind its own, and the program finds the report legal that a
// run printed.
fn comes_out<T: Threads + Wait + Sync>(
    rt: &T,
    alloc: Global,
    row: &str,
    more: &str,
) -> Result<bool, AllocError> {
    let (command, row) = cut(row);
    let (text, row) = cut(row);
    let (printed, told) = cut(row);
    let (status, words) = command.split_once(' ').unwrap_or((command, ""));
    let line = format!(in alloc; "{words} {more}")?;
    let text = bytes_of(alloc, text)?;
    let ended = run(rt, alloc, &line, text.clone()?)?;
    let comes_out = ended.is_as(alloc, status, printed, told)?;
    Ok(comes_out && is_legal_if_run(rt, alloc, words, &text, &ended)?)
}

// Whether a report is legal, where the words are those of a run and there is one.
fn is_legal_if_run<T: Threads + Wait + Sync>(
    rt: &T,
    alloc: Global,
    words: &str,
    text: &[u8],
    ended: &Ended,
) -> Result<bool, AllocError> {
    if !words.starts_with("run") || ended.printed.is_empty() {
        return Ok(true);
    }
    is_legal(rt, alloc, text, &ended.printed)
}

// Whether each row of a table comes out with these words behind its own.
fn all_come_out<T: Abort + Threads + Wait + Sync>(
    rt: &T,
    alloc: Global,
    table: &str,
    more: &str,
) -> Result<(), AllocError> {
    for row in table.lines() {
        let comes_out = comes_out(rt, alloc, row, more)?;
        assert!(rt; comes_out, "{row} {more}");
    }
    Ok(())
}

#[test]
fn rows_come_out_on_each_table(rt: HostRuntime) -> Result<(), Fail> {
    all_come_out(&rt, rt.alloc(), ON_EACH_TABLE, "--table hash")?;
    all_come_out(&rt, rt.alloc(), ON_EACH_TABLE, "--table tree")?;
    all_come_out(&rt, rt.alloc(), ON_EACH_TABLE, "--table list")?;
    Ok(())
}

#[test]
fn keys_are_moved_on_the_hash_table_alone(rt: HostRuntime) -> Result<(), Fail> {
    all_come_out(&rt, rt.alloc(), MOVES, "")?;
    Ok(())
}

#[test]
fn commands_end_as_their_options_and_limits_say(rt: HostRuntime) -> Result<(), Fail> {
    all_come_out(&rt, rt.alloc(), ON_ONE_TABLE, "")?;
    Ok(())
}

// The counts are the same whoever serves the requests, and however reads are served.
#[test]
fn loads_give_the_same_counts(rt: HostRuntime) -> Result<(), Fail> {
    let alloc = rt.alloc();
    let plan = "load --seed=1 --traces 8 --length 400 --keys 100";
    let first = run(&rt, alloc, plan, Vec::new(alloc))?;
    assert!(rt; first.status == 0 && first.printed.starts_with(b"requests 3200\n"));
    for more in [
        "--runners 4",
        "--runners 1 --buckets 1024",
        "--runners 4 --reads free",
    ] {
        let line = format!(in alloc; "{plan} {more}")?;
        let again = run(&rt, alloc, &line, Vec::new(alloc))?;
        assert!(rt; again.is(0, &first.printed, b""), "{more}");
    }
    Ok(())
}

const TEXT: &str = "flock 1/trace/ins 5 70/get 5/del 5/get 5/";

// The lines of the legal report, and what each of their bytes makes of it where the next byte stands
// in its place, the line feed's as well: a line that is none (`f`), the next line's rank on this
// line (`n`), a rank that is too high (`r`), a wrong reply (`p`), or a wrong final number (`e`).
const CHANGES: [(&str, &str); 6] = [
    ("trace 0/", "ffffffff"),
    ("0 new/", "nfffff"),
    ("1 val 70/", "nfffffppf"),
    ("2 gone/", "nffffff"),
    ("3 none/", "rffffff"),
    ("final 0/", "ffffffef"),
];

// What the program prints where such a change was made on the line with this number.
fn verdict_of(alloc: Global, change: u8, line: usize) -> Result<String, AllocError> {
    let (line, word) = match change {
        b'f' => (line, "form"),
        b'n' => (line.saturating_add(1), "rank"),
        b'r' => (line, "rank"),
        b'p' => (line, "reply"),
        _ => (line, "final"),
    };
    format!(in alloc; "line {line}: {word}\n")
}

// Whether the check finds this change of the legal report's byte at this place, which is on this line.
fn is_found<T: Threads + Wait + Sync>(
    rt: &T,
    alloc: Global,
    report: &[u8],
    place: usize,
    change: u8,
    line: usize,
) -> Result<bool, AllocError> {
    let mut changed = report.to_vec(alloc)?;
    if let Some(byte) = changed.get_mut(place) {
        *byte = byte.wrapping_add(1);
    }
    let verdict = verdict_of(alloc, change, line)?;
    let ended = check(rt, alloc, &bytes_of(alloc, TEXT)?, &changed)?;
    Ok(ended.is(10, verdict.as_bytes(), b""))
}

#[test]
fn each_byte_of_a_report_is_looked_at(rt: HostRuntime) -> Result<(), Fail> {
    let alloc = rt.alloc();
    let mut report = Vec::new(alloc);
    for (line, _) in CHANGES {
        report.extend_from_slice(&bytes_of(alloc, line)?)?;
    }
    assert!(rt; is_legal(&rt, alloc, &bytes_of(alloc, TEXT)?, &report)?);
    let mut place = 0usize;
    for (before, (_, changes)) in CHANGES.iter().enumerate() {
        for change in changes.as_bytes() {
            let line = before.saturating_add(1);
            let is_found = is_found(&rt, alloc, &report, place, *change, line)?;
            assert!(rt; is_found, "byte {place}");
            place = place.saturating_add(1);
        }
    }
    assert!(rt; place == report.len());
    Ok(())
}
