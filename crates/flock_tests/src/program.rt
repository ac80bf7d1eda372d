//! The program over streams in memory. Nothing is promised of these calls: they run.
use crate::legal;
use flock_tool::flock;
use flock_tool::report_text::{MemorySink, Sink};
use flock_tool::threaded_runs::runner_gate::{Gates, PlannedGates};
use flock_tool::trace_reader::{Source, SureSource};
use itoa::Buffer;
use std::alloc::{AllocError, Global};
use std::sync::Wait;
use std::thread::Threads;

/// The tables that serve the requests.
pub const TABLES: [&str; 3] = ["hash", "tree", "list"];

/// What a run left: its status, what it printed, and what it told.
#[derive(Drop)]
pub struct Ended {
    pub status: u8,
    pub printed: Vec<u8>,
    pub told: Vec<u8>,
}

impl Ended {
    /// The printed report, as a text.
    pub fn report(&self) -> &str {
        str::from_utf8(&self.printed).unwrap_or("")
    }

    /// Whether the run ended with this status, and printed and told exactly this.
    pub fn is(&self, status: u8, printed: &[u8], told: &[u8]) -> bool {
        self.status == status && self.printed.as_slice() == printed && self.told.as_slice() == told
    }

    /// The same of a row's columns. A printed `*` stands for whatever was printed.
    pub fn is_as(
        &self,
        alloc: Global,
        status: &str,
        printed: &str,
        told: &str,
    ) -> Result<bool, AllocError> {
        let (printed, told) = (bytes_of(alloc, printed)?, bytes_of(alloc, told)?);
        let is_printed = printed.as_slice() == b"*".as_slice() || printed == self.printed;
        Ok(Buffer::new().format(self.status) == status && is_printed && told == self.told)
    }
}

/// What stands before the first bar of a row, and what behind it.
pub fn cut(row: &str) -> (&str, &str) {
    row.split_once('|').unwrap_or((row, ""))
}

/// Adds a part of a row's text: in it `/` stands for a line feed, `^` for a carriage return and `~` for a byte above
/// 127, `@` for the number of the repetition and `&` for a number that is one higher each time.
fn add(
    bytes: &mut Vec<u8>,
    part: &str,
    repetition: u32,
    rises: &mut u32,
) -> Result<(), AllocError> {
    for byte in part.as_bytes() {
        match *byte {
            b'/' => bytes.push(b'\n')?,
            b'^' => bytes.push(b'\r')?,
            b'~' => bytes.push(233)?,
            b'@' => bytes.extend_from_slice(Buffer::new().format(repetition).as_bytes())?,
            b'&' => {
                bytes.extend_from_slice(Buffer::new().format(*rises).as_bytes())?;
                *rises = rises.saturating_add(1);
            }
            other => bytes.push(other)?,
        }
    }
    Ok(())
}

/// Adds a part so many times, as `3*trace/` says.
fn add_often(
    alloc: Global,
    bytes: &mut Vec<u8>,
    part: &str,
    rises: &mut u32,
) -> Result<(), AllocError> {
    let (times, part) = part.split_once('*').unwrap_or(("", ""));
    let times = times.parse::<u32>().unwrap_or(0);
    if part == "x" {
        bytes.extend_from_slice(&vec![in alloc; b'x'; times as usize]?)?;
        return Ok(());
    }
    for repetition in 1..=times {
        add(bytes, part, repetition, rises)?;
    }
    Ok(())
}

/// The bytes of a row's text, in which `{3*trace/}` stands for three times `trace/`.
pub fn bytes_of(alloc: Global, row: &str) -> Result<Vec<u8>, AllocError> {
    let (mut bytes, mut rises) = (Vec::new(alloc), 0);
    for part in row.split('{') {
        match part.split_once('}') {
            Some((often, rest)) => {
                add_often(alloc, &mut bytes, often, &mut rises)?;
                add(&mut bytes, rest, 0, &mut rises)?;
            }
            None => add(&mut bytes, part, 0, &mut rises)?,
        }
    }
    Ok(bytes)
}

/// A sink in memory that holds nothing, and takes all that it is given.
pub fn quiet_sink(alloc: Global) -> MemorySink {
    MemorySink::new(alloc, Vec::new(alloc), Vec::new(alloc))
}

/// The status of the words of a command line over these streams, by these gates; what the run answered is let go.
pub fn status_of<'a, T: Threads + Wait + Sync, R: Source, K: Sink, F: Sink, G: Gates>(
    rt: &T,
    alloc: Global,
    words: &'a [&'a str],
    source: &mut R,
    sink: &mut K,
    faults: &mut F,
    gates: &mut G,
) -> u8 {
    let (status, ran) = flock(rt, alloc, words, source, sink, faults, gates);
    drop(ran);
    status
}

/// Runs the words of a command line on what this source holds, by these gates.
pub fn run_from<T: Threads + Wait + Sync, R: Source, G: Gates>(
    rt: &T,
    alloc: Global,
    line: &str,
    source: &mut R,
    gates: &mut G,
) -> Result<Ended, AllocError> {
    let words: Vec<&str> = line.split_whitespace().collect(alloc)?;
    let (mut sink, mut faults) = (quiet_sink(alloc), quiet_sink(alloc));
    let status = status_of(rt, alloc, &words, source, &mut sink, &mut faults, gates);
    Ok(Ended {
        status,
        printed: sink.bytes().to_vec(alloc)?,
        told: faults.bytes().to_vec(alloc)?,
    })
}

/// Runs the words of a command line on a text, by gates that halt where the words say so.
pub fn run<T: Threads + Wait + Sync>(
    rt: &T,
    alloc: Global,
    line: &str,
    text: Vec<u8>,
) -> Result<Ended, AllocError> {
    let mut source = SureSource::new(text, Vec::new(alloc));
    run_from(rt, alloc, line, &mut source, &mut PlannedGates::new())
}

/// Runs the program's check of this report on this text.
pub fn check<T: Threads + Wait + Sync>(
    rt: &T,
    alloc: Global,
    text: &[u8],
    report: &[u8],
) -> Result<Ended, AllocError> {
    let mut input = text.to_vec(alloc)?;
    input.extend_from_slice(b"report\n")?;
    input.extend_from_slice(report)?;
    run(rt, alloc, "check", input)
}

/// Whether this report on this text is legal: the program finds it so, and so does `legal`, which knows nothing of how
/// either came about.
pub fn is_legal<T: Threads + Wait + Sync>(
    rt: &T,
    alloc: Global,
    text: &[u8],
    report: &[u8],
) -> Result<bool, AllocError> {
    let ended = check(rt, alloc, text, report)?;
    let replayed = legal::is_legal(alloc, text, str::from_utf8(report).unwrap_or(""))?;
    Ok(ended.is(0, b"legal\n", b"") && replayed)
}
