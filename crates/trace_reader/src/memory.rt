// Sources over bytes in memory, which tell what they have left.
ghost use Rattle.std.specs.Prelude.{
  ◌≡◌,
  ◌<◌,
  ◌≤◌,
  ◌++◌,
  [],
  false,
  ℕ,
  Ok,
  Some,
  drop,
  length,
  take,
  IsErr,
  IsTrue,
  IfOk,
  OnErr,
  OnOk,
};
ghost use Rattle.fault_count.specs.Rose.{Rose};
ghost use Rattle.trace_reader.specs.Memory.{is_planned, next_call, next_count};
ghost use Rattle.trace_reader.specs.Source.{EndsAt, Moves};

use crate::source::{Failed, Source};
use fault_count::FaultCount;
use std::marker::Model;

// Bytes that are handed out in pieces of given sizes, and the rest as the buffer allows.
#[derive(Drop)]
struct Pieces {
    bytes: Vec<u8>,
    at: usize,
    sizes: Vec<usize>,
    reads: usize,
}

impl Model for Pieces {
    ghost use Rattle.std.specs.Prelude.{◌≤◌, drop, vec_len};
    ghost use Rattle.trace_reader.specs.Memory.{Supply};

    ghost Value = { Supply };

    ghost view = { λ pieces. record {
      left = drop pieces.at pieces.bytes.items;
      sizes = drop pieces.reads pieces.sizes.items;
    } };

    ghost invariant = { λ pieces. pieces.at ≤ vec_len pieces.bytes };
}

impl Pieces {
    fn new(bytes: Vec<u8>, sizes: Vec<usize>) -> Self
        ensures { result ≡ record { left = bytes.items; sizes = sizes.items } }
    {
        Self {
            bytes,
            at: 0,
            sizes,
            reads: 0,
        }
    }

    // Moves the next piece into the buffer. A piece of 0 counts as 1.
    fn take(&mut self, buffer: &mut [u8]) -> usize
        ensures count { result ≡ next_count self.old.left self.old.sizes (length buffer.new) }
        ensures bound { result ≤ length buffer.new }
        ensures moved { self.old.left ≡ take result buffer.new ++ self.new.left }
        ensures end { 0 < length buffer.old → result ≡ 0 → self.old.left ≡ [] }
        ensures sizes { self.new.sizes ≡ drop 1 self.old.sizes }
    {
        let left = self.bytes.len() - self.at;
        let piece = self.sizes.get(self.reads).copied().unwrap_or(left).max(1);
        let count = piece.min(left).min(buffer.len());
        buffer[..count].copy_from_slice(&self.bytes[self.at..self.at + count]);
        self.at += count;
        self.reads = self.reads.saturating_add(1);
        count
    }
}

/// Bytes in memory, with planned failures. Its calls are numbered from 1, and those in `fails` fail.
#[derive(Drop)]
pub struct MemorySource {
    pieces: Pieces,
    fails: Vec<u64>,
    calls: u64,
    faults: FaultCount,
}

impl Model for MemorySource {
    ghost use Rattle.trace_reader.specs.Memory.{Memory};

    ghost Value = { Memory };

    ghost view = { λ source. record {
      left = source.pieces.left;
      sizes = source.pieces.sizes;
      fails = source.fails.items;
      calls = source.calls;
      faults = source.faults;
    } };
}

impl MemorySource {
    /// A source of these bytes. It hands them out in pieces of these sizes, where a 0 counts as 1, and the rest as
    /// the buffer allows. The calls whose numbers, from 1, stand in `fails` fail.
    pub fn new(bytes: Vec<u8>, pieces: Vec<usize>, fails: Vec<u64>) -> Self
        ensures { result
            ≡ record { left = bytes.items; sizes = pieces.items; fails = fails.items; calls = 0; faults = 0 } }
    {
        Self {
            pieces: Pieces::new(bytes, pieces),
            fails,
            calls: 0,
            faults: FaultCount::new(),
        }
    }
}

impl Source for MemorySource {
    ghost left = { λ source. Some source.left };

    ghost faults = { λ source. source.faults };

    fn read(&mut self, buffer: &mut [u8]) -> Result<usize, Failed>
        ensures bound { IfOk result (λ n. n ≤ length buffer.new) }
        ensures moved { IfOk result (λ n. Moves (Some self.old.left) (take n buffer.new) (Some self.new.left)) }
        ensures end { 0 < length buffer.old → IfOk result (λ n. n ≡ 0 → EndsAt (Some self.old.left)) }

        ensures failed { OnErr result (self.new.left ≡ self.old.left) }
        ensures cause { OnErr result (Rose self.old.faults self.new.faults) }
        ensures steady { OnOk result (self.new.faults ≡ self.old.faults) }
        ensures later { self.old.faults ≤ self.new.faults }

        // It fails exactly at the calls that are planned, and every other call moves the next piece.
        ensures planned { IsTrue (is_planned self.old.fails (next_call self.old)) → IsErr result }
        ensures piece { is_planned self.old.fails (next_call self.old) ≡ false
            → result ≡ Ok (next_count self.old.left self.old.sizes (length buffer.new)) }
        ensures kept { OnErr result (self.new
            ≡ record self.old { calls = next_call self.old; faults = self.new.faults }) }
        ensures taken { OnOk result (self.new
            ≡ record self.old { left = self.new.left; sizes = drop 1 self.old.sizes; calls = next_call self.old }) }
    {
        self.calls = self.calls.saturating_add(1);
        if is_planned(&self.fails, self.calls) {
            self.faults.raise();
            return Err(Failed);
        }
        Ok(self.pieces.take(buffer))
    }
}

// Whether a call is in a list of calls.
fn is_planned(calls: &[u64], call: u64) -> bool
    ensures { result ≡ is_planned calls.now call }
{
    calls.contains(&call)
}

/// Bytes in memory, without failures.
#[derive(Drop)]
pub struct SureSource {
    pieces: Pieces,
}

impl Model for SureSource {
    ghost use Rattle.trace_reader.specs.Memory.{Supply};

    ghost Value = { Supply };

    ghost view = { λ source. source.pieces };
}

impl SureSource {
    /// A source of these bytes. It hands them out as `MemorySource` does, and no call fails.
    pub fn new(bytes: Vec<u8>, pieces: Vec<usize>) -> Self
        ensures { result ≡ record { left = bytes.items; sizes = pieces.items } }
    {
        Self {
            pieces: Pieces::new(bytes, pieces),
        }
    }
}

impl Source for SureSource {
    ghost left = { λ source. Some source.left };

    ghost faults = { λ _. 0 };

    fn read(&mut self, buffer: &mut [u8]) -> Result<usize, Failed>
        ensures bound { IfOk result (λ n. n ≤ length buffer.new) }
        ensures moved { IfOk result (λ n. Moves (Some self.old.left) (take n buffer.new) (Some self.new.left)) }
        ensures end { 0 < length buffer.old → IfOk result (λ n. n ≡ 0 → EndsAt (Some self.old.left)) }
        ensures failed { OnErr result (self.new.left ≡ self.old.left) }

        ensures piece { result ≡ Ok (next_count self.old.left self.old.sizes (length buffer.new)) }
        ensures sizes { self.new.sizes ≡ drop 1 self.old.sizes }
    {
        Ok(self.pieces.take(buffer))
    }
}
