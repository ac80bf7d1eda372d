// The reading of a whole text.
ghost use Rattle.std.specs.Prelude.{◌≡◌, ◌≤◌, IsErrOf, IfOk, IfSome};
ghost use Rattle.fault_count.specs.Rose.{Rose};
ghost use Rattle.map_history.specs.Requests.{AreInOrder};
ghost use Rattle.trace_reader.specs.Answer.{Answers, IsExact, StopsBefore};
ghost use Rattle.trace_reader.specs.Formats.{AreOfFormat, IsFormat};

use crate::reader::Reader;
use crate::source::Source;
use crate::traces::{TraceError, Traces};
use std::alloc::Global;

/// How many bytes are asked of the source at a time.
const PIECE: usize = 16_384;

/// Reads a trace text to the end of the input, or to the first thing that it is refused for.
///
/// Ok comes exactly where the whole input is in the grammar and within the limits. Otherwise the refusal with the
/// first place in the text is answered, however the source cuts it into pieces. A read that fails is a refusal at
/// the place where the reading stood. `Memory` is want of memory, and may come at any place.
pub fn read_traces<R: Source>(alloc: Global, source: &mut R) -> Result<Traces, TraceError>
    ensures answer { IfSome (R.left source.old) (Answers result) }
    ensures exact { (Rose (R.faults source.old) (R.faults source.new) → ⊥)
        → IfSome (R.left source.old) (IsExact result) }
    ensures ordered { IfOk result (λ traces. AreInOrder traces.requests traces.count) }
    ensures format { IfOk result (λ traces. IsFormat traces.format × AreOfFormat traces.format traces.requests) }

    // A failed read is answered only where the source counted it, and where nothing before it is refused. Where the
    // source counted one, it is answered and nothing else.
    ensures fault { IsErrOf result TraceError.ReadFault → Rose (R.faults source.old) (R.faults source.new) }
    ensures steady { (IsErrOf result TraceError.ReadFault → ⊥) → R.faults source.new ≡ R.faults source.old }
    ensures first { IsErrOf result TraceError.ReadFault → StopsBefore (R.left source.old) (R.left source.new) }
    ensures later { R.faults source.old ≤ R.faults source.new }
{
    read_pieces(alloc, source)
}

fn read_pieces<R: Source>(alloc: Global, source: &mut R) -> Result<Traces, TraceError>
    ensures answer { IfSome (R.left source.old) (Answers result) }
    ensures ordered { IfOk result (λ traces. AreInOrder traces.requests traces.count) }
    ensures format { IfOk result (λ traces. IsFormat traces.format × AreOfFormat traces.format traces.requests) }
    ensures fault { IsErrOf result TraceError.ReadFault → Rose (R.faults source.old) (R.faults source.new) }
    ensures steady { (IsErrOf result TraceError.ReadFault → ⊥) → R.faults source.new ≡ R.faults source.old }
    ensures first { IsErrOf result TraceError.ReadFault → StopsBefore (R.left source.old) (R.left source.new) }
    ensures later { R.faults source.old ≤ R.faults source.new }
{
    let mut reader = Reader::new(alloc);
    let mut piece = [0; PIECE];
    loop {
        let count = source.read(&mut piece)?;
        if count == 0 {
            return reader.finish();
        }
        reader.feed(&piece[..count])?;
    }
}
