// What the check of a report answers, and how an input is parted.
use crate::rows::{Shown, bytes_of, check};
use command_line::trace_reader::{SureSource, read_traces};
use report_check::{check_report, split_report};
use std::alloc::{AllocError, Global};
use std::test::Fail;

// A text, and behind a bar a report: legal, or the first line that fails and how. A reply to `put` tells the value
// before it; of two wrong replies the one is told that stands first.
const JUDGED: &str = "\
flock 1/trace/ins 5 70/ins 5 80/get 5/|trace 0/0 new/1 dup/2 val 70/final 1/ => Legal
flock 1/trace/ins 5 70/ins 5 80/get 5/|trace 0/0 new/- unserved/- unserved/final 1/ => Legal
flock 1/trace/ins 5 70/ins 5 80/get 5/|trace 0/0 new/1 dup/2 val 80/final 1/ => Fails { line: 4, kind: Reply }
flock 1/trace/ins 5 70/ins 5 80/get 5/|trace 0/0 new/2 dup/1 val 70/final 1/ => Fails { line: 4, kind: Rank }
flock 1/trace/ins 5 70/ins 5 80/get 5/|trace 0/0 new/- unserved/1 val 70/final 1/ => Fails { line: 4, kind: Rank }
flock 1/trace/ins 5 70/ins 5 80/get 5/|trace 0/0 new/1 dup/2 val 70/final 2/ => Fails { line: 5, kind: Final }
flock 1/trace/ins 5 70/ins 5 80/get 5/|trace 0/0 new/1 dup/2 val 70/ => Fails { line: 5, kind: Form }
flock 1/trace/ins 5 70/ins 5 80/get 5/| => Fails { line: 1, kind: Form }
flock 1/trace/ins 5 70/ins 5 80/get 5/|trace 00/0 new/1 dup/2 val 70/final 1/ => Fails { line: 1, kind: Form }
flock 1/trace/ins 5 70/ins 5 80/get 5/|trace 0/00 new/1 dup/2 val 70/final 1/ => Fails { line: 2, kind: Form }
flock 1/trace/ins 5 70/ins 5 80/get 5/|trace 0/0 new/1 dup/2 val 4294967296/final 1/ => Fails { line: 4, kind: Form }
flock 1/trace/ins 5 70/ins 5 80/get 5/|trace 0/0 new/1 dup/2 val 70/final 1 => Fails { line: 5, kind: Form }
flock 1/trace/ins 5 70/ins 5 80/get 5/|trace 0/0 new/1 dup/2 val 70/final 1// => Fails { line: 6, kind: Form }
flock 1/trace/ins 5 70/ins 5 80/get 5/|trace 0/0 new/3 dup/2 val 70/final 1/ => Fails { line: 3, kind: Rank }
flock 1/trace/ins 5 70/ins 5 80/get 5/|trace 0/0 new/0 dup/2 val 70/final 1/ => Fails { line: 3, kind: Rank }
flock 1/trace/ins 5 70/get 5/|trace 0/123456789012345678901234567890 new/1 val 70/final 1/ => Fails { line: 2, kind: Rank }
flock 1/trace/ins 5 70/get 5/trace/del 5/|trace 0/0 new/1 val 70/trace 1/2 gone/final 0/ => Legal
flock 1/trace/ins 5 70/get 5/trace/del 5/|trace 0/0 new/2 none/trace 1/1 gone/final 0/ => Legal
flock 1/trace/ins 5 70/get 5/trace/del 5/|trace 0/1 new/2 val 70/trace 1/0 none/final 1/ => Legal
flock 1/trace/ins 5 70/get 5/trace/del 5/|trace 0/0 new/- unserved/trace 1/1 gone/final 0/ => Legal
flock 1/trace/ins 5 70/get 5/trace/del 5/|trace 0/- unserved/- unserved/trace 1/- unserved/final 0/ => Legal
flock 1/trace/ins 5 70/get 5/trace/del 5/|trace 0/0 new/1 val 70/trace 1/2 gone/final 1/ => Fails { line: 6, kind: Final }
flock 1/trace/ins 5 70/get 5/trace/del 5/|trace 0/0 new/1 val 71/trace 1/2 gone/final 0/ => Fails { line: 3, kind: Reply }
flock 1/trace/ins 5 70/get 5/trace/del 5/|trace 0/0 new/1 none/trace 1/2 gone/final 0/ => Fails { line: 3, kind: Reply }
flock 1/trace/ins 5 70/get 5/trace/del 5/|trace 0/1 new/0 none/trace 1/2 gone/final 0/ => Fails { line: 3, kind: Rank }
flock 1/trace/ins 5 70/get 5/trace/del 5/|trace 0/0 new/1 val 70/trace 1/1 gone/final 0/ => Fails { line: 5, kind: Rank }
flock 1/trace/ins 5 70/get 5/trace/del 5/|trace 0/0 new/1 val 70/trace 1/3 gone/final 0/ => Fails { line: 5, kind: Rank }
flock 1/trace/ins 5 70/get 5/trace/del 5/|trace 0/- unserved/0 none/trace 1/1 none/final 0/ => Fails { line: 3, kind: Rank }
flock 1/trace/ins 5 70/get 5/trace/del 5/|trace 0/0 new/1 val 70/trace 1/02 gone/final 0/ => Fails { line: 5, kind: Form }
flock 1/trace/ins 5 70/get 5/trace/del 5/|trace 0/0 new/1 val 70/trace 1/2 gone/final 0 => Fails { line: 6, kind: Form }
flock 1/trace/ins 5 70/get 5/trace/del 5/|trace 0/0 new/1 val 70/trace 1/2 gone/final 0// => Fails { line: 7, kind: Form }
flock 1/trace/ins 5 70/get 5/trace/del 5/|trace 0/0 new/1 val 70/2 gone/trace 1/final 0/ => Fails { line: 4, kind: Form }
flock 1/trace/ins 5 70/get 5/trace/del 5/|trace 0/0 new/1 val 70/trace 1/final 0/ => Fails { line: 5, kind: Form }
flock 1/trace/ins 5 70/get 5/trace/del 5/|trace 0/0 new/1 val 70/trace 1/2 gone/trace 2/final 0/ => Fails { line: 6, kind: Form }
flock 1/|final 0/ => Legal
flock 2/trace/put 5 70/put 5 80/|trace 0/0 new/1 was 70/final 1/ => Legal
flock 2/trace/put 5 70/put 5 80/|trace 0/0 new/1 was 80/final 1/ => Fails { line: 3, kind: Reply }
flock 2/trace/put 5 70/put 5 80/|trace 0/0 new/1 val 70/final 1/ => Fails { line: 3, kind: Reply }
flock 2/trace/put 5 70/put 5 80/|trace 0/0 new/1 was 4294967296/final 1/ => Fails { line: 3, kind: Form }
flock 3/trace/ins 1 10/mov 1 2/get 2/mov 1 3/mov 2 2/|trace 0/0 new/1 moved/2 val 10/3 none/4 dup/final 1/ => Legal
flock 3/trace/ins 1 10/mov 1 2/get 2/|trace 0/0 new/1 dup/2 val 10/final 1/ => Fails { line: 3, kind: Reply }
flock 3/trace/ins 1 10/mov 1 2/get 2/|trace 0/0 new/1 moved/2 none/final 1/ => Fails { line: 4, kind: Reply }
flock 3/trace/ins 1 10/mov 1 2/get 2/|trace 0/0 new/1 moved 10/2 val 10/final 1/ => Fails { line: 3, kind: Form }
flock 3/trace/ins 1 10/mov 1 2/get 2/|trace 0/0 new/1 moved/2 val 10/final 2/ => Fails { line: 5, kind: Final }
flock 1/trace/get 1/trace/get 1/|trace 0/1 gone/trace 1/0 gone/final 0/ => Fails { line: 2, kind: Reply }
";

struct Judged;

impl Shown for Judged {
    fn shown(alloc: Global, text: &str) -> Result<String, AllocError> {
        let (text, report) = text.split_once('|').unwrap_or((text, ""));
        let mut source = SureSource::new(bytes_of(alloc, text)?, Vec::new(alloc));
        let Ok(traces) = read_traces(alloc, &mut source) else {
            return format!(in alloc; "refused");
        };
        let verdict = check_report(alloc, &traces, &bytes_of(alloc, report)?)?;
        format!(in alloc; "{verdict:?}")
    }
}

#[test]
fn a_report_is_legal_or_has_a_first_failing_line(rt: HostRuntime) -> Result<(), Fail> {
    check::<Judged>(&rt, rt.alloc(), JUDGED)?;
    Ok(())
}

// Where the first line begins and ends whose only field is `report`.
const PARTED: &str = "\
flock 1/\t report ^/report/ => Some((8, 19))
report => Some((0, 6))
flock 1/report 1/reports/#report => None
";

struct Parted;

impl Shown for Parted {
    fn shown(alloc: Global, text: &str) -> Result<String, AllocError> {
        let parts = split_report(&bytes_of(alloc, text)?);
        format!(in alloc; "{parts:?}")
    }
}

#[test]
fn the_first_report_line_parts(rt: HostRuntime) -> Result<(), Fail> {
    check::<Parted>(&rt, rt.alloc(), PARTED)?;
    Ok(())
}
