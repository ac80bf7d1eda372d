// Where bytes go.
ghost use Rattle.std.specs.Prelude.{List, ℕ, Option, ◌≡◌, ◌<◌, ◌≤◌, length, take, IfOk, OnErr, OnOk};
ghost use Rattle.std.specs.Io.KnownBytes.{Keeps};
ghost use Rattle.fault_count.specs.Rose.{Rose};
ghost use Rattle.report_text.specs.Sink.{Extends, Appends};

/// A write that failed.
#[derive(Clone, Copy, Debug, PartialEq, Eq)]
pub struct Failed;

/// Bytes that are kept in order, and a count of the writes that failed or took nothing.
pub trait Sink {
    /// The bytes that it holds, where the sink tells them.
    ghost held: { Self → Option (List ℕ) };

    /// How many faults it has counted. The count never falls.
    ghost faults: { Self → ℕ };

    /// Appends some of the bytes, from the front, and says how many. Failed appends none, and comes only with a
    /// fault that is counted. To take nothing of bytes that aren't empty is a fault too. A write that
    /// took some leaves the count as it was.
    fn write(&mut self, bytes: &[u8]) -> Result<usize, Failed>
        ensures bound { IfOk result (λ count. count ≤ length bytes.now) }
        ensures appended { IfOk result (λ count. Extends (held self.old) (take count bytes.now) (held self.new)) }
        ensures failed { OnErr result (Keeps (held self.old) (held self.new)) }

        ensures later { faults self.old ≤ faults self.new }
        ensures cause { OnErr result (Rose (faults self.old) (faults self.new)) }
        ensures stuck { 0 < length bytes.now
            → IfOk result (λ count. count ≡ 0 → Rose (faults self.old) (faults self.new)) }
        ensures steady { IfOk result (λ count. 0 < count → faults self.new ≡ faults self.old) };
}

/// Writes all of the bytes, by as many writes as the sink needs. Failed where a write failed or took nothing;
/// the sink then holds a part of the bytes, from the front.
pub fn write_all<K: Sink>(sink: &mut K, bytes: &[u8]) -> Result<(), Failed>
    ensures appends { Appends result (K.held sink.old) bytes.now (K.held sink.new) }
    ensures later { K.faults sink.old ≤ K.faults sink.new }
    ensures cause { OnErr result (Rose (K.faults sink.old) (K.faults sink.new)) }
    ensures steady { OnOk result (K.faults sink.new ≡ K.faults sink.old) }
{
    let mut rest = bytes;
    while !rest.is_empty() {
        let count = sink.write(rest)?;
        if count == 0 {
            return Err(Failed);
        }
        rest = &rest[count..];
    }
    Ok(())
}
