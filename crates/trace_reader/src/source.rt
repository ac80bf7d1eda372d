// Where a text comes from.
ghost use Rattle.std.specs.Prelude.{List, ℕ, Option, ◌≡◌, ◌<◌, ◌≤◌, length, take, IfOk, OnErr, OnOk};
ghost use Rattle.std.specs.Io.KnownBytes.{Keeps};
ghost use Rattle.fault_count.specs.Rose.{Rose};
ghost use Rattle.trace_reader.specs.Source.{Moves, EndsAt};

/// A read that failed.
#[derive(Clone, Copy, Debug, PartialEq, Eq)]
pub struct Failed;

/// Bytes that come in pieces.
pub trait Source {
    /// The bytes still to come, where the source tells them.
    ghost left: { Self → Option (List ℕ) };

    /// How often a read has failed.
    ghost faults: { Self → ℕ };

    /// Moves bytes into the buffer from its start, and says how many. For a buffer that isn't empty, 0 is the end
    /// of the input. Failed moves nothing, and comes only where the count of faults rose; any other answer leaves it
    /// as it was.
    fn read(&mut self, buffer: &mut [u8]) -> Result<usize, Failed>
        ensures bound { IfOk result (λ n. n ≤ length buffer.new) }
        ensures moved { IfOk result (λ n. Moves (left self.old) (take n buffer.new) (left self.new)) }
        ensures end { 0 < length buffer.old → IfOk result (λ n. n ≡ 0 → EndsAt (left self.old)) }

        ensures failed { OnErr result (Keeps (left self.old) (left self.new)) }
        ensures cause { OnErr result (Rose (faults self.old) (faults self.new)) }
        ensures steady { OnOk result (faults self.new ≡ faults self.old) }
        ensures later { faults self.old ≤ faults self.new };
}
