// What a report looks like, and what a sink holds after a write that failed or took nothing.
use map_history::{Entry, Op, Reply, Request};
use printed_traces::report_text::{MemorySink, ranks, write_report};
use std::alloc::Global;
use std::test::Fail;

fn served(stamp: u64, reply: Reply) -> Option<Entry> {
    Some(Entry { stamp, reply })
}

#[test]
fn every_kind_of_line(rt: HostRuntime) -> Result<(), Fail> {
    let alloc = rt.alloc();
    let requests = [
        Request {
            trace: 0,
            number: 0,
            op: Op::Ins(5, 70),
        },
        Request {
            trace: 0,
            number: 1,
            op: Op::Ins(5, 80),
        },
        Request {
            trace: 0,
            number: 2,
            op: Op::Get(5),
        },
        Request {
            trace: 0,
            number: 3,
            op: Op::Del(5),
        },
        Request {
            trace: 0,
            number: 4,
            op: Op::Get(5),
        },
        Request {
            trace: 2,
            number: 5,
            op: Op::Get(6),
        },
        Request {
            trace: 2,
            number: 6,
            op: Op::Put(6, 80),
        },
        Request {
            trace: 2,
            number: 7,
            op: Op::Get(6),
        },
    ];
    let entries = [
        served(2, Reply::New),
        served(4, Reply::Dup),
        served(6, Reply::Val(70)),
        served(8, Reply::Gone),
        served(10, Reply::Absent),
        served(4, Reply::Val(4294967295)),
        served(12, Reply::Was(4294967295)),
        None,
    ];
    let ranks = ranks(alloc, &entries)?;
    let mut sink = MemorySink::new(alloc, Vec::new(alloc), Vec::new(alloc));
    let written = write_report(3, &requests, &entries, &ranks, 4294967295, &mut sink);
    assert!(rt; written.is_ok());
    let want =
        b"trace 0\n0 new\n1 dup\n3 val 70\n4 gone\n5 none\ntrace 1\ntrace 2\n2 val 4294967295\n6 was 4294967295\n- unserved\nfinal 4294967295\n";
    assert!(rt; sink.bytes() == want.as_slice());
    Ok(())
}

/// What a sink with these faults holds of a report of two pages, and whether it took all of it.
fn held(alloc: Global, fails: Vec<u64>, empty: Vec<u64>) -> (MemorySink, bool) {
    let mut sink = MemorySink::new(alloc, fails, empty);
    let written = write_report(600, &[], &[], &[], 0, &mut sink);
    (sink, written.is_ok())
}

#[test]
fn a_write_that_fails_or_takes_nothing_leaves_a_part(rt: HostRuntime) -> Result<(), Fail> {
    let alloc = rt.alloc();
    let (whole, is_whole) = held(alloc, Vec::new(alloc), Vec::new(alloc));
    assert!(rt; is_whole && whole.bytes().len() > 4096);
    for call in 1..3u64 {
        let (failed, is_whole) = held(alloc, [call].to_vec(alloc)?, Vec::new(alloc));
        assert!(rt;
            !is_whole && whole.bytes().starts_with(failed.bytes()),
            "{call}"
        );
        let (stopped, is_whole) = held(alloc, Vec::new(alloc), [call].to_vec(alloc)?);
        assert!(rt; !is_whole && stopped.bytes() == failed.bytes(), "{call}");
    }
    Ok(())
}
