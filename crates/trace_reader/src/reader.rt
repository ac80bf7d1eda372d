// A text from its bytes: those of the line that has begun, and what the lines before it say.
ghost use Rattle.std.specs.Prelude.{◌≡◌, ℕ, List, [], ◌∷◌, ◌++◌, ◌+◌, ◌<◌, ◌≤◌, ◌==◌, length, vec_len};
ghost use Rattle.std.specs.Prelude.{true, OnOk, OnSome, IfOk, IfErr, IfNone, IfSome, nat_lt, position};
ghost use Rattle.std.proofs.Props.{props};
ghost use Rattle.map_history.specs.Requests.{most_requests};
ghost use Rattle.trace_reader.specs.Formats.{IsFormat};

use crate::limits::MAX_BYTES;
use crate::line::{Line, read_line};
use crate::plain::{PlainRequest, plain_request};
use crate::traces::{BadLine, TraceError, Traces};
use map_history::Op;
use memchr::memchr;
use std::alloc::Global;

// Where the first line feed stands.
fn find_feed(bytes: &[u8]) -> Option<usize>
    ensures { result ≡ position (λ byte. byte == 10) bytes.now }
{
    memchr(b'\n', bytes)
}

// The text goes on past the limit.
fn too_large() -> TraceError
    ensures { result ≡ TraceError.TooLarge 4194305 }
{
    TraceError::TooLarge {
        bytes: u64::from(MAX_BYTES) + 1,
    }
}

/// What has been read so far. Its memory, beside the requests, is that of the longest line.
#[derive(Drop)]
pub struct Reader {
    // the bytes of the line that has begun
    line: Vec<u8>,
    // how many bytes were read, and how many lines are finished
    bytes: u32,
    lines: u32,
    // the format of the header, where a finished line is it
    format: Option<u32>,
    traces: Traces,
    ghost known: { IfSome format IsFormat } by { Prim.hlevel props },
    ghost few_bytes: { bytes ≤ 4194304 },
    ghost fewer_lines: { lines + vec_len line ≤ bytes },
    ghost few_traces: { traces.count ≤ 64 },
    ghost few_requests: { length traces.requests ≤ most_requests },
}

impl Reader {
    ghost use Rattle.map_history.specs.Requests.{AreInOrder};
    ghost use Rattle.trace_reader.specs.Answer.{Answers, IsAnswered};
    ghost use Rattle.trace_reader.specs.Formats.{AreOfFormat};
    ghost use Rattle.trace_reader.specs.Lines.{IsOneLine};
    ghost use Rattle.trace_reader.specs.Plain.{IsRequestAt};
    ghost use Rattle.trace_reader.specs.Reader.{HasTakenLine, MayAsk, StandsAt, StandsAtEnd, StandsBehind};
    ghost use Rattle.trace_reader.specs.Reader.{IsRefusedFor, Refuses, TracesAfter, ExcessOf};
    ghost use Rattle.trace_reader.specs.Said.{Says, IsPlaced, format_after};
    ghost use Rattle.trace_reader.specs.Text.{refusal_of};

    pub fn new(alloc: Global) -> Self
        ensures { StandsAt result [] }
    {
        Self {
            line: Vec::new(alloc),
            bytes: 0,
            lines: 0,
            format: None,
            traces: Traces::new(alloc),
        }
    }

    // Takes the next piece of the text.
    pub fn feed(&mut self, piece: &[u8]) -> Result<(), TraceError>
        ensures ok { OnOk result ((text : List ℕ) → StandsAt self.old text → StandsAt self.new (text ++ piece.now)) }
        ensures err { IfErr result (λ e. (text rest : List ℕ) → StandsAt self.old text
            → Refuses e (text ++ piece.now ++ rest)) }
        ensures nearer { OnOk result (self.new.bytes ≡ self.old.bytes + length piece.now) }
    {
        let mut rest = piece;
        while let Some(end) = self.take_line(rest)? {
            rest = &rest[end + 1..];
        }
        self.keep(rest)
    }

    // Takes the line that ends first in these bytes, with its line feed, and says where that stands.
    // None where none ends there.
    fn take_line(&mut self, bytes: &[u8]) -> Result<Option<usize>, TraceError>
        ensures taken { IfOk result (λ found. IfSome found (HasTakenLine self.old self.new bytes.now)) }
        ensures none { IfOk result (λ found. IfNone found ((self.new ≡ self.old) × IsOneLine bytes.now)) }
        ensures err { IfErr result (λ e. (text rest : List ℕ) → StandsAt self.old text
            → Refuses e (text ++ bytes.now ++ rest)) }
    {
        if let Some(request) = self.next_request(bytes) {
            self.take_request(request.op, &bytes[..request.end])?;
            return Ok(Some(request.end));
        }
        let Some(end) = find_feed(bytes) else {
            return Ok(None);
        };
        self.keep(&bytes[..end])?;
        self.take_feed()?;
        Ok(Some(end))
    }

    // The request with which these bytes begin, where it is written plainly, may stand here, and is
    // within the limit of bytes.
    fn next_request(&self, bytes: &[u8]) -> Option<PlainRequest>
        ensures request { IfSome result (λ found. IsRequestAt self.now.format bytes.now found.op found.end) }
        ensures placed { OnSome result (MayAsk self.now) }
        ensures room { IfSome result (λ found. self.now.bytes + found.end < 4194304) }
    {
        let format = self.format_here()?;
        let request = plain_request(bytes, format)?;
        if request.end < (MAX_BYTES - self.bytes) as usize {
            Some(request)
        } else {
            None
        }
    }

    // The format, where a line begins here, behind a trace.
    fn format_here(&self) -> Option<u32>
        ensures format { IfSome result (λ format. self.now.format ≡ Some format) }
        ensures placed { OnSome result (MayAsk self.now) }
    {
        if self.line.is_empty() && self.traces.count > 0 {
            self.format
        } else {
            None
        }
    }

    // Takes the line of that request, with its line feed.
    fn take_request(&mut self, op: Op, line: &[u8]) -> Result<(), TraceError>
        requires placed { MayAsk self.old }
        requires one { IsOneLine line.now }
        requires says { Says (Line.Ask op) self.old.format true line.now }
        requires room { self.old.bytes + length line.now < 4194304 }
        ensures ok { OnOk result ((text : List ℕ) → StandsAt self.old text
            → StandsAt self.new (text ++ line.now ++ 10 ∷ [])) }
        ensures err { IfErr result (λ e. (text rest : List ℕ) → StandsAt self.old text
            → Refuses e (text ++ line.now ++ 10 ∷ rest)) }
        ensures nearer { OnOk result (self.new.bytes ≡ self.old.bytes + length line.now + 1) }
    {
        self.traces.ask(op)?;
        self.bytes += line.len() as u32 + 1;
        self.lines += 1;
        Ok(())
    }

    // Takes the next bytes, of which none ends the line.
    fn keep(&mut self, bytes: &[u8]) -> Result<(), TraceError>
        requires { IsOneLine bytes.now }
        ensures ok { OnOk result ((text : List ℕ) → StandsAt self.old text → StandsAt self.new (text ++ bytes.now)) }
        ensures err { IfErr result (λ e. (text rest : List ℕ) → StandsAt self.old text
            → Refuses e (text ++ bytes.now ++ rest)) }
        ensures nearer { OnOk result (self.new.bytes ≡ self.old.bytes + length bytes.now) }
    {
        let room = (MAX_BYTES - self.bytes) as usize;
        if room < bytes.len() {
            self.append(&bytes[..room])?;
            return Err(too_large());
        }
        self.append(bytes)
    }

    // Puts bytes that fit behind those of the line.
    fn append(&mut self, bytes: &[u8]) -> Result<(), TraceError>
        requires line { IsOneLine bytes.now }
        requires room { self.old.bytes + length bytes.now ≤ 4194304 }
        ensures ok { OnOk result ((text : List ℕ) → StandsAt self.old text → StandsAt self.new (text ++ bytes.now)) }
        ensures err { IfErr result (λ e. e ≡ TraceError.Memory) }
        ensures nearer { OnOk result (self.new.bytes ≡ self.old.bytes + length bytes.now) }
    {
        self.line.extend_from_slice(bytes)?;
        self.bytes += bytes.len() as u32;
        Ok(())
    }

    // Takes a line feed.
    fn take_feed(&mut self) -> Result<(), TraceError>
        ensures ok { OnOk result ((text : List ℕ) → StandsAt self.old text → StandsAt self.new (text ++ 10 ∷ [])) }
        ensures err { IfErr result (λ e. (text rest : List ℕ) → StandsAt self.old text
            → Refuses e (text ++ 10 ∷ rest)) }
        ensures nearer { OnOk result (self.new.bytes ≡ self.old.bytes + 1) }
    {
        if self.bytes == MAX_BYTES {
            return Err(too_large());
        }
        self.bytes += 1;
        self.end_line()
    }

    // The line that has begun is whole.
    fn end_line(&mut self) -> Result<(), TraceError>
        requires { self.old.lines < self.old.bytes }
        ensures ok { OnOk result ((lines : List (List ℕ)) → StandsBehind self.old lines
            → StandsBehind self.new (lines ++ self.old.line.items ∷ [])) }
        ensures cleared { OnOk result (self.new.line.items ≡ []) }
        ensures bytes { OnOk result (self.new.bytes ≡ self.old.bytes) }
        ensures err { IfErr result (λ e. (lines : List (List ℕ)) → StandsBehind self.old lines
            → IsRefusedFor e (refusal_of lines self.old.line.items)) }
    {
        let said = self.read_line()?;
        self.accept(said)?;
        self.line.clear();
        self.lines += 1;
        Ok(())
    }

    // What that line says.
    fn read_line(&self) -> Result<Line, TraceError>
        requires { self.now.lines < self.now.bytes }
        ensures said { IfOk result (λ said.
            Says said self.now.format (nat_lt 0 self.now.traces.count) self.now.line.items) }
        ensures err { IfErr result (λ e. (lines : List (List ℕ)) → StandsBehind self.now lines
            → IsRefusedFor e (refusal_of lines self.now.line.items)) }
    {
        match read_line(&self.line, self.format, self.traces.count > 0) {
            Ok(said) => Ok(said),
            Err(kind) => Err(self.malformed(kind)),
        }
    }

    // Takes in what it says.
    fn accept(&mut self, said: Line) -> Result<(), TraceError>
        requires { IsPlaced said self.old.format (nat_lt 0 self.old.traces.count) }
        ensures header { OnOk result (self.new.format ≡ format_after self.old.format said) }
        ensures traces { OnOk result (TracesAfter said self.old.traces self.new.traces) }
        ensures same { (self.new.line.items ≡ self.old.line.items) × (self.new.bytes ≡ self.old.bytes)
            × (self.new.lines ≡ self.old.lines) }
        ensures err { IfErr result (λ e. ExcessOf said self.old.traces e) }
    {
        match said {
            Line::Skipped => {}
            Line::Header(format) => self.format = Some(format),
            Line::Trace => self.traces.begin_trace()?,
            Line::Ask(op) => self.traces.ask(op)?,
        }
        Ok(())
    }

    // The text ends here.
    pub fn finish(mut self) -> Result<Traces, TraceError>
        ensures answer { (text : List ℕ) → StandsAt self text → IsAnswered result text }
        ensures ordered { (text : List ℕ) → StandsAt self text
            → IfOk result (λ traces. AreInOrder traces.requests traces.count) }
        ensures format { (text : List ℕ) → StandsAt self text
            → IfOk result (λ traces. IsFormat traces.format × AreOfFormat traces.format traces.requests) }
    {
        self.end_last_line()?;
        let Some(format) = self.format else {
            return Err(self.malformed(BadLine::NoHeader));
        };
        let mut traces = self.traces;
        traces.format = format;
        Ok(traces)
    }

    // A last piece without a line feed is a line where it isn't empty.
    fn end_last_line(&mut self) -> Result<(), TraceError>
        ensures ok { OnOk result ((text : List ℕ) → StandsAt self.old text → StandsAtEnd self.new text) }
        ensures err { IfErr result (λ e. (text : List ℕ) → StandsAt self.old text → Refuses e text) }
    {
        if self.line.is_empty() {
            return Ok(());
        }
        self.end_line()
    }

    // The next line has this fault.
    fn malformed(&self, kind: BadLine) -> TraceError
        requires { self.now.lines ≤ 4194304 }
        ensures { result ≡ TraceError.Malformed (self.now.lines + 1) kind }
    {
        TraceError::Malformed {
            line: self.lines + 1,
            kind,
        }
    }
}
