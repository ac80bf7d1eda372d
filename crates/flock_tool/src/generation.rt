// The command `gen`.
ghost use Rattle.command_line.specs.Generated.{ArePlanRanges};
ghost use Rattle.flock_tool.specs.Commands.{GenPrints};
ghost use Rattle.flock_tool.specs.Streams.{stream};

use crate::status::{status_of, stop_of_print, tell};
use command_line::trace_reader::Gen;
use printed_traces::print_generated;
use printed_traces::report_text::Sink;
use std::alloc::Global;

/// Prints a trace text with generated requests, and gives the status.
pub fn gen_command<K: Sink, F: Sink>(alloc: Global, plan: &Gen, sink: &mut K, faults: &mut F) -> u8
    requires { ArePlanRanges plan.now }
    ensures { GenPrints plan.now result
        (stream (K.held sink.old) (K.held sink.new) (K.faults sink.old) (K.faults sink.new))
        (stream (F.held faults.old) (F.held faults.new) (F.faults faults.old) (F.faults faults.new)) }
{
    match print_generated(alloc, plan, sink) {
        Ok(()) => 0,
        Err(error) => {
            let stop = stop_of_print(error);
            tell(stop, faults);
            status_of(stop)
        }
    }
}
