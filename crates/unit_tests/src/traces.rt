// What is read of texts, what is generated, and what is printed again.
ghost use Rattle.command_line.specs.trace_reader.specs.Generator.{IsPlan};

use crate::rows::{Shown, bytes_of, check, number_of};
use command_line::trace_reader::{Gen, MemorySource, SureSource, generate, read_traces};
use printed_traces::trace_text;
use std::alloc::{AllocError, Global};
use std::test::Fail;

// The format, the number of traces, and the requests; or why the text is refused.
const READ: &str = "\
flock 1^/# note^/^/\ttrace/ ins\t007 1/trace/get 42/del 7 => 1, 2, [Request { trace: 0, number: 0, op: Ins(7, 1) }, \
Request { trace: 1, number: 1, op: Get(42) }, Request { trace: 1, number: 2, op: Del(7) }]
flock 2/trace/put 1 2/put\t1 3/ins 1 4/put 1 5 => 2, 1, [Request { trace: 0, number: 0, op: Put(1, 2) }, \
Request { trace: 0, number: 1, op: Put(1, 3) }, Request { trace: 0, number: 2, op: Ins(1, 4) }, \
Request { trace: 0, number: 3, op: Put(1, 5) }]
flock 3/trace/mov 1 2/mov\t4294967293 7 => 3, 1, [Request { trace: 0, number: 0, op: Mov(1, 2) }, \
Request { trace: 0, number: 1, op: Mov(4294967293, 7) }]
flock 1/trace/put 1/ => Malformed { line: 3, kind: UnknownWord }
flock 1/trace/put 1 2/ => Malformed { line: 3, kind: UnknownWord }
flock 2/trace/put 1/ => Malformed { line: 3, kind: MissingField }
flock 2/trace/put 4294967294 1/ => Malformed { line: 3, kind: KeyTooLarge }
flock 2/trace/mov 1 2/ => Malformed { line: 3, kind: UnknownWord }
flock 3/mov 1 2/ => Malformed { line: 2, kind: RequestBeforeTrace }
flock 3/trace/mov 1/ => Malformed { line: 3, kind: MissingField }
flock 3/trace/mov 1 2 3/ => Malformed { line: 3, kind: ExtraField }
flock 3/trace/mov 4294967294 x/ => Malformed { line: 3, kind: BadNumber }
flock 3/trace/mov 4294967294 1/ => Malformed { line: 3, kind: KeyTooLarge }
flock 3/trace/mov 1 4294967294/ => Malformed { line: 3, kind: KeyTooLarge }
flock 3/trace/mov 1 4294967296/ => Malformed { line: 3, kind: KeyTooLarge }
flock 4/ => Malformed { line: 1, kind: NoHeader }
flock 2 2/ => Malformed { line: 1, kind: NoHeader }
";

struct Read;

impl Shown for Read {
    fn shown(alloc: Global, text: &str) -> Result<String, AllocError> {
        let mut source = SureSource::new(bytes_of(alloc, text)?, Vec::new(alloc));
        match read_traces(alloc, &mut source) {
            Ok(traces) => {
                let (format, count) = (traces.format, traces.count);
                let requests = traces.requests.into_vec();
                format!(in alloc; "{format}, {count}, {requests:?}")
            }
            Err(error) => format!(in alloc; "{error:?}"),
        }
    }
}

#[test]
fn a_text_gives_its_requests_or_its_first_fault(rt: HostRuntime) -> Result<(), Fail> {
    check::<Read>(&rt, rt.alloc(), READ)?;
    Ok(())
}

// Which read fails, and the text: a fault before it is told in its place.
const FAILING: &str = "\
2 flock 1/walk/ => Some(Malformed { line: 2, kind: UnknownWord })
2 flock 1/trace/ => Some(ReadFault)
1 flock 1/trace/ => Some(ReadFault)
";

struct Failing;

impl Shown for Failing {
    fn shown(alloc: Global, text: &str) -> Result<String, AllocError> {
        let (failing, text) = text.split_once(' ').unwrap_or(("", text));
        let fails = Vec::from_array(alloc, [u64::from(number_of(failing))])?;
        let mut source = MemorySource::new(bytes_of(alloc, text)?, Vec::new(alloc), fails);
        let error = read_traces(alloc, &mut source).err();
        format!(in alloc; "{error:?}")
    }
}

#[test]
fn a_failed_read_is_told_behind_the_faults_before_it(rt: HostRuntime) -> Result<(), Fail> {
    check::<Failing>(&rt, rt.alloc(), FAILING)?;
    Ok(())
}

/// How many requests are generated, and what is printed of them.
fn printed(alloc: Global, plan: &Gen) -> Result<String, AllocError>
    requires { IsPlan plan.now }
{
    let made = generate(alloc, plan)?;
    let text = trace_text(alloc, made.requests.as_slice(), made.count)?;
    let text = str::from_utf8(&text).unwrap_or("");
    format!(in alloc; "{} {} {text}", made.format, made.requests.len())
}

const ONE: Gen = Gen {
    seed: 1,
    traces: 1,
    length: 3,
    keys: 100,
    apart: false,
};

// Three traces of one request draw the same outputs as one of three.
const THREE: Gen = Gen {
    seed: 1,
    traces: 3,
    length: 1,
    keys: 100,
    apart: true,
};

const NONE: Gen = Gen {
    seed: 1,
    traces: 3,
    length: 0,
    keys: 100,
    apart: true,
};

#[test]
fn requests_are_generated(rt: HostRuntime) -> Result<(), Fail> {
    let one = printed(rt.alloc(), &ONE)?;
    assert!(rt; one.as_str() == "1 3 flock 1\ntrace\ndel 58\nins 15 150\nget 27\n");
    let three = printed(rt.alloc(), &THREE)?;
    assert!(rt;
        three.as_str() == "1 3 flock 1\ntrace\ndel 174\ntrace\nins 46 460\ntrace\nget 83\n"
    );
    let none = printed(rt.alloc(), &NONE)?;
    assert!(rt; none.as_str() == "1 0 flock 1\ntrace\ntrace\ntrace\n");
    Ok(())
}

// Texts, and how their requests are printed again: in the least format.
const AGAIN: &str = "\
flock 1/trace/del 58/ins 15 150/get 27/ => flock 1/trace/del 58/ins 15 150/get 27/
flock 2/trace/ins 5 70/put 5 80/trace/ => flock 2/trace/ins 5 70/put 5 80/trace/
flock 3/trace/mov 5 6/put 5 80/ => flock 3/trace/mov 5 6/put 5 80/
flock 3/trace/put 5 80/ => flock 2/trace/put 5 80/
flock 2/trace/get 5/ => flock 1/trace/get 5/
flock 1/trace/trace/ => flock 1/trace/trace/
";

struct Again;

impl Shown for Again {
    fn shown(alloc: Global, text: &str) -> Result<String, AllocError> {
        let mut source = SureSource::new(bytes_of(alloc, text)?, Vec::new(alloc));
        let Ok(traces) = read_traces(alloc, &mut source) else {
            return format!(in alloc; "refused");
        };
        let printed = trace_text(alloc, traces.requests.as_slice(), traces.count)?;
        str::from_utf8(&printed)
            .unwrap_or("")
            .replace(alloc, "\n", "/")
    }
}

#[test]
fn a_text_is_printed_in_the_least_format(rt: HostRuntime) -> Result<(), Fail> {
    check::<Again>(&rt, rt.alloc(), AGAIN)?;
    Ok(())
}
