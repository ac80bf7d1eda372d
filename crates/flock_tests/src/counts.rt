//! The counts of some replies, as they are printed.
use flock_tool::load_counts::{count_replies, print_counts};
use flock_tool::report_text::MemorySink;
use map_history::{Entry, Reply};
use std::test::Fail;

#[test]
fn counts_are_printed(rt: HostRuntime) -> Result<(), Fail> {
    let alloc = rt.alloc();
    let replies = [
        Reply::New,
        Reply::Val(7),
        Reply::Absent,
        Reply::New,
        Reply::Dup,
        Reply::Val(0),
        Reply::Val(7),
        Reply::Gone,
    ];
    let mut entries = Vec::new(alloc);
    entries.push(None)?;
    for reply in replies {
        entries.push(Some(Entry { stamp: 2, reply }))?;
    }
    assert!(rt; entries.len() == 9);
    let counts = count_replies(&entries);
    let mut sink = MemorySink::new(alloc, Vec::new(alloc), Vec::new(alloc));
    assert!(rt; print_counts(9, &counts, 1, &mut sink).is_ok());
    let text = b"requests 9\nnew 2\ndup 1\nval 3\ngone 1\nnone 1\nfinal 1\n";
    assert!(rt; sink.bytes() == text.as_slice());
    Ok(())
}
