// What a text gives: its requests, or what it is refused for.
ghost use Rattle.std.specs.Prelude.{◌≡◌, ◌⊎◌, ◌++◌, ◌+◌, ◌-◌, ◌<◌, ◌≤◌, ◌∷◌, [], OnOk, IfErr, suc, length};
ghost use Rattle.map_history.specs.Requests.{most_requests};
ghost use Rattle.trace_reader.specs.declared.traces.TraceError.TheVariants.{ReadFault, Memory};

use crate::limits::{MAX_REQUESTS, MAX_TRACES};
use crate::requests::Requests;
use crate::source::Failed;
use map_history::{Op, Request};
use std::alloc::{AllocError, AllocFailed, Global};

/// The requests of a text, in its order, how many traces it has, and its format.
#[derive(Debug, Drop)]
pub struct Traces {
    /// The number that its header names, 1 to 3.
    pub format: u32,
    pub count: u32,
    pub requests: Requests,
}

impl Traces {
    ghost use Rattle.trace_reader.specs.declared.traces.TraceError.TheVariants.{Memory, TooManyTraces, TooManyRequests};

    /// No trace yet, of the least format.
    pub(crate) fn new(alloc: Global) -> Self
        ensures count { result.count ≡ 0 }
        ensures requests { result.requests ≡ [] }
    {
        Self {
            format: 1,
            count: 0,
            requests: Requests::new(alloc),
        }
    }

    /// Begins the next trace.
    pub(crate) fn begin_trace(&mut self) -> Result<(), TraceError>
        requires { self.old.count ≤ 64 }
        ensures count { OnOk result (self.new.count ≡ self.old.count + 1) }
        ensures few { self.new.count ≤ 64 }
        ensures requests { self.new.requests ≡ self.old.requests }
        ensures err { IfErr result (λ e. (e ≡ TooManyTraces 65) × (self.old.count ≡ 64)) }
    {
        if self.count == MAX_TRACES {
            return Err(TraceError::TooManyTraces {
                count: MAX_TRACES + 1,
            });
        }
        self.count += 1;
        Ok(())
    }

    /// Adds a request of the trace that has begun.
    pub(crate) fn ask(&mut self, op: Op) -> Result<(), TraceError>
        requires begun { 0 < self.old.count }
        requires few_requests { length self.old.requests ≤ most_requests }
        ensures count { self.new.count ≡ self.old.count }
        ensures requests { OnOk result (self.new.requests ≡ self.old.requests ++ record {
          trace = self.old.count - 1;
          number = length self.old.requests;
          op = op;
        } ∷ []) }
        ensures few { length self.new.requests ≤ most_requests }
        ensures err { IfErr result (λ e. (e ≡ Memory)
            ⊎ ((e ≡ TooManyRequests (suc most_requests)) × (length self.old.requests ≡ most_requests))) }
    {
        let number = self.requests.len();
        if number == MAX_REQUESTS as usize {
            return Err(TraceError::TooManyRequests {
                count: MAX_REQUESTS + 1,
            });
        }
        self.requests.push(Request {
            trace: self.count - 1,
            number: number as u32,
            op,
        })?;
        Ok(())
    }
}

/// What is wrong with a line. A line is tested in this order, and its first fault is told.
#[derive(Clone, Copy, Debug, PartialEq, Eq)]
pub enum BadLine {
    /// A byte above 127.
    NotAscii,
    /// The first line that counts is neither `flock 1` nor `flock 2` nor `flock 3`.
    NoHeader,
    /// The first field isn't `trace`, `get`, `ins` or `del`, nor `put` in a text of format 2 or 3, nor `mov` in one of
    /// format 3.
    UnknownWord,
    /// A request before the first `trace`.
    RequestBeforeTrace,
    /// Too few fields.
    MissingField,
    /// Too many fields.
    ExtraField,
    /// A field that should be a number has a byte that isn't a digit.
    BadNumber,
    /// A key above 4,294,967,293.
    KeyTooLarge,
    /// A value above 4,294,967,295.
    ValueTooLarge,
}

/// Why a text was not read.
#[derive(Clone, Copy, Debug, PartialEq, Eq)]
pub enum TraceError {
    /// The source failed.
    ReadFault,
    /// The text has more than 4,194,304 bytes.
    TooLarge { bytes: u64 },
    /// A line, counted from 1, and its fault.
    Malformed { line: u32, kind: BadLine },
    /// The text has more than 64 traces.
    TooManyTraces { count: u32 },
    /// The text has more than 131,072 requests.
    TooManyRequests { count: u32 },
    /// Want of memory.
    Memory,
}

impl From<Failed> for TraceError {
    ghost from_gives = { λ _ e. e ≡ ReadFault };

    fn from(_: Failed) -> Self {
        TraceError::ReadFault
    }
}

impl From<AllocError> for TraceError {
    ghost from_gives = { λ _ e. e ≡ Memory };

    fn from(_: AllocError) -> Self {
        TraceError::Memory
    }
}

impl<T: Drop> From<AllocFailed<T>> for TraceError {
    ghost from_gives = { λ _ e. e ≡ Memory };

    fn from(_: AllocFailed<T>) -> Self {
        TraceError::Memory
    }
}
