// The edge: std's readers and writers as a source and sinks. They tell of what they have left and hold what std
// tells of them.
ghost use Rattle.std.specs.Prelude.{◌≡◌};

use command_line::trace_reader::Source;
use printed_traces::report_text::Sink;
use printed_traces::report_text::fault_count::FaultCount;
use std::io::{Read, Write};

/// A reader as a source: it counts each read that fails.
#[derive(Drop)]
pub struct StdSource<R> {
    reader: R,
    faults: FaultCount,
}

impl<R: Read> StdSource<R> {
    /// The reader as a source, which has left what the reader has.
    pub fn new(reader: R) -> Self
        ensures { result.reader ≡ reader }
    {
        Self {
            reader,
            faults: FaultCount::new(),
        }
    }
}

impl<R: Read> Source for StdSource<R> {
    ghost left = { λ source. R.remaining source.reader };

    ghost faults = { λ source. source.faults };

    fn read(&mut self, buffer: &mut [u8]) -> Result<usize, command_line::trace_reader::Failed> {
        match self.reader.read(buffer) {
            Ok(count) => Ok(count),
            Err(_) => {
                self.faults.raise();
                Err(command_line::trace_reader::Failed)
            }
        }
    }
}

/// A writer as a sink: it counts each write that fails, and each that takes nothing of bytes that aren't empty.
#[derive(Drop)]
pub struct StdSink<W> {
    writer: W,
    faults: FaultCount,
}

impl<W: Write> StdSink<W> {
    /// The writer as a sink, which holds what the writer does.
    pub fn new(writer: W) -> Self
        ensures { result.writer ≡ writer }
    {
        Self {
            writer,
            faults: FaultCount::new(),
        }
    }
}

impl<W: Write> Sink for StdSink<W> {
    ghost held = { λ sink. W.contents sink.writer };

    ghost faults = { λ sink. sink.faults };

    fn write(&mut self, bytes: &[u8]) -> Result<usize, printed_traces::report_text::Failed> {
        match self.writer.write(bytes) {
            Ok(count) => {
                if count == 0 && !bytes.is_empty() {
                    self.faults.raise();
                }
                Ok(count)
            }
            Err(_) => {
                self.faults.raise();
                Err(printed_traces::report_text::Failed)
            }
        }
    }
}
