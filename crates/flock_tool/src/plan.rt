// What the options of a command and the text, or the generator, ask for.
ghost use Rattle.std.specs.Prelude.{◌≡◌, ◌↔◌, ◌≤◌, ◌<◌, ◌^◌, length, Err, IfOk, IfErr, IfSome, IsTrue};
ghost use Rattle.machine_states.specs.map_history.specs.Requests.{most_requests};
ghost use Rattle.threaded_runs.specs.runner_gate.specs.fault_count.specs.Rose.{Rose};
ghost use Rattle.machine_states.specs.table_words.specs.Limits.{IsWithinLimits};
ghost use Rattle.threaded_runs.specs.free_serving.specs.resource_bounds.specs.Makes.{inserts};
ghost use Rattle.command_line.specs.trace_reader.specs.Answer.{StopsBefore};
ghost use Rattle.command_line.specs.trace_reader.specs.declared.traces.TraceError.TheVariants.{ReadFault, TooManyRequests};
ghost use Rattle.command_line.specs.Generated.{AreLoadRanges};
ghost use Rattle.command_line.specs.Options.{AreInRange};
ghost use Rattle.flock_tool.specs.declared.status.Stop.TheVariants.{Text};
ghost use Rattle.flock_tool.specs.Plans.{
  IsForAnotherTable,
  IsPlanned,
  IsRefusedPlan,
  IsLoadPlanned,
  IsRefusedLoad,
  MustPlan,
  IsTooMuch,
  all_requests,
  layout_by,
};

use crate::status::Stop;
use command_line::trace_reader::{MAX_REQUESTS, Source, TraceError, Traces, generate, read_traces};
use command_line::{LoadOptions, RunOptions, TableKind};
use machine_states::map_history::Request;
use machine_states::table_words::Layout;
use std::alloc::Global;

/// The most node slots that the runners have together.
const MOST_NODES: u32 = 262_144;

/// What is to be run.
#[derive(Drop)]
pub struct Plan {
    pub options: RunOptions,
    pub traces: Traces,
    pub layout: Layout,
}

/// Reads the text that is run with these options. Refused by its first refusal, since it is for another table than they
/// name, or for too many node slots, in this order.
pub fn plan_of<R: Source>(alloc: Global, options: RunOptions, source: &mut R) -> Result<Plan, Stop>
    requires { AreInRange options }
    ensures planned { IfOk result (IsPlanned options (R.left source.old)) }
    ensures limits { IfOk result (λ plan. IsWithinLimits plan.layout) }
    ensures refused { IfErr result (IsRefusedPlan options (R.left source.old)) }
    ensures must { (Rose (R.faults source.old) (R.faults source.new) → ⊥)
        → IfSome (R.left source.old) (MustPlan options result) }
    ensures read { result ≡ Err (Text ReadFault) → Rose (R.faults source.old) (R.faults source.new)
        × StopsBefore (R.left source.old) (R.left source.new) }
    ensures reads { (result ≡ Err (Text ReadFault) → ⊥) → R.faults source.new ≡ R.faults source.old }
{
    let traces = read_traces(alloc, source)?;
    if is_for_another_table(&options, &traces) {
        return Err(Stop::Words);
    }
    let layout = layout_of(&options, &traces)?;
    Ok(Plan {
        options,
        traces,
        layout,
    })
}

// Whether the words name a table that doesn't serve this text: one of format 3 may ask for a `mov`.
fn is_for_another_table(options: &RunOptions, traces: &Traces) -> bool
    ensures { IsTrue result ↔ IsForAnotherTable options.now traces.now }
{
    match options.table {
        TableKind::Hash => false,
        TableKind::Tree | TableKind::List => moves_keys(traces),
    }
}

/// Whether a request of this text may be a `mov`, which only the table that moves keys serves.
pub(crate) fn moves_keys(traces: &Traces) -> bool
    ensures { IsTrue result ↔ (traces.now.format ≡ 3) }
{
    traces.format == 3
}

/// Generates the requests that are run with these options. Refused for too many requests, or for too many node slots,
/// in this order.
pub fn load_plan(alloc: Global, load: LoadOptions) -> Result<Plan, Stop>
    requires { AreLoadRanges load }
    ensures planned { IfOk result (IsLoadPlanned load) }
    ensures limits { IfOk result (λ plan. IsWithinLimits plan.layout) }
    ensures refused { IfErr result (IsRefusedLoad load) }
    ensures must { most_requests < all_requests load.plan
        → result ≡ Err (Text (TooManyRequests (all_requests load.plan))) }
{
    let count = load.plan.traces * load.plan.length;
    if count > MAX_REQUESTS {
        return Err(Stop::Text(TraceError::TooManyRequests { count }));
    }
    let traces = generate(alloc, &load.plan)?;
    let options = load.run;
    let layout = layout_of(&options, &traces)?;
    Ok(Plan {
        options,
        traces,
        layout,
    })
}

// The numbers that fix the table, where the runners have no more node slots together than the limit.
fn layout_of(options: &RunOptions, traces: &Traces) -> Result<Layout, Stop>
    requires ranges { AreInRange options.now }
    requires few { length traces.now.requests ≤ most_requests }
    ensures layout { IfOk result (λ layout. layout ≡ layout_by options.now traces.now.count traces.now.requests) }
    ensures limits { IfOk result IsWithinLimits }
    ensures much { IfErr result (IsTooMuch (layout_by options.now traces.now.count traces.now.requests)) }
{
    has_32_bits(options.version_max);
    let runners = options.runners_for(traces.count);
    let nodes = options.nodes_for(insertions(traces.requests.as_slice()), runners);
    let count = nodes * runners;
    if count > MOST_NODES {
        return Err(Stop::Nodes { count });
    }
    Ok(Layout {
        runners,
        nodes,
        sections: options.sections,
        version_max: options.version_max,
    })
}

// A number has 32 bits, by its type.
fn has_32_bits(number: u32)
    ensures { number < 2 ^ 32 }
{
    let _ = number;
}

/// How many of the requests may add a pair.
pub(crate) fn insertions(requests: &[Request]) -> u32
    requires { length requests.now ≤ most_requests }
    ensures { result ≡ inserts requests.now }
{
    requests
        .iter()
        .filter(|request| request.op.may_add())
        .count() as u32
}
