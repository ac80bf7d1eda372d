// A sink in memory, with planned faults.
ghost use Rattle.std.specs.Prelude.{◌≡◌, ◌<◌, ◌≤◌, [], Some, Ok, false, length, take, IsTrue, IsErr, IfOk, OnErr};
ghost use Rattle.fault_count.specs.Rose.{Rose};
ghost use Rattle.report_text.specs.Sink.{Extends};
ghost use Rattle.report_text.specs.MemorySink.{next_call, is_planned};

use crate::sink::{Failed, Sink};
use fault_count::FaultCount;
use std::alloc::Global;
use std::marker::Model;

/// A sink that keeps its bytes in memory. Its calls are numbered from 1; those in `fails` fail, and those in `empty`
/// take nothing. A write that finds no memory fails too.
#[derive(Drop)]
pub struct MemorySink {
    bytes: Vec<u8>,
    fails: Vec<u64>,
    empty: Vec<u64>,
    calls: u64,
    faults: FaultCount,
}

impl Model for MemorySink {
    ghost use Rattle.report_text.specs.MemorySink.{Memory};

    ghost Value = { Memory };

    ghost view = { λ sink. record {
      bytes = sink.bytes.items;
      fails = sink.fails.items;
      empty = sink.empty.items;
      calls = sink.calls;
      faults = sink.faults;
    } };
}

impl MemorySink {
    /// A sink that holds nothing yet.
    pub fn new(alloc: Global, fails: Vec<u64>, empty: Vec<u64>) -> Self
        ensures { result ≡ record { bytes = []; fails = fails.items; empty = empty.items; calls = 0; faults = 0 } }
    {
        Self {
            bytes: Vec::new(alloc),
            fails,
            empty,
            calls: 0,
            faults: FaultCount::new(),
        }
    }

    /// What it holds.
    pub fn bytes(&self) -> &[u8]
        ensures { result.now ≡ self.now.bytes }
    {
        self.bytes.as_slice()
    }
}

impl Sink for MemorySink {
    ghost held = { λ sink. Some sink.bytes };

    ghost faults = { λ sink. sink.faults };

    fn write(&mut self, bytes: &[u8]) -> Result<usize, Failed>
        ensures bound { IfOk result (λ count. count ≤ length bytes.now) }
        ensures appended { IfOk result (λ count. Extends (Some self.old.bytes) (take count bytes.now)
            (Some self.new.bytes)) }
        ensures failed { OnErr result (self.new.bytes ≡ self.old.bytes) }

        ensures later { self.old.faults ≤ self.new.faults }
        ensures cause { OnErr result (Rose self.old.faults self.new.faults) }
        ensures stuck { 0 < length bytes.now → IfOk result (λ count. count ≡ 0 → Rose self.old.faults self.new.faults) }
        ensures steady { IfOk result (λ count. 0 < count → self.new.faults ≡ self.old.faults) }

        ensures planned { IsTrue (is_planned self.old.fails (next_call self.old)) → IsErr result }
        ensures empty { is_planned self.old.fails (next_call self.old) ≡ false
            → IsTrue (is_planned self.old.empty (next_call self.old)) → result ≡ Ok 0 }
        ensures whole { is_planned self.old.empty (next_call self.old) ≡ false
            → IfOk result (λ count. count ≡ length bytes.now) }
        ensures plan { self.new ≡ record self.old {
          bytes = self.new.bytes;
          calls = next_call self.old;
          faults = self.new.faults;
        } }
    {
        self.calls = self.calls.saturating_add(1);
        if is_planned(&self.fails, self.calls) {
            self.faults.raise();
            return Err(Failed);
        }
        if is_planned(&self.empty, self.calls) {
            self.faults.raise();
            return Ok(0);
        }
        if self.bytes.extend_from_slice(bytes).is_err() {
            self.faults.raise();
            return Err(Failed);
        }
        Ok(bytes.len())
    }
}

// Whether a call is in a list of calls.
fn is_planned(calls: &[u64], call: u64) -> bool
    ensures { result ≡ is_planned calls.now call }
{
    calls.contains(&call)
}
