// The run itself, and its report.
ghost use Rattle.std.specs.Prelude.{◌≡◌, ◌≢◌, ◌≤◌, length, All, IfOk, IfErr, OnErr, OnOk, [], true};
ghost use Rattle.std.specs.FinMap.{len};
ghost use Rattle.machine_states.specs.map_history.specs.declared.op.Request.{Request};
ghost use Rattle.machine_states.specs.map_history.specs.Replay.{Pairs};
ghost use Rattle.machine_states.specs.map_history.specs.Requests.{AreInOrder, most_requests};
ghost use Rattle.machine_states.specs.table_words.specs.Limits.{IsWithinLimits};
ghost use Rattle.version_words.specs.machine_invariant.specs.After.{AreAllowed};
ghost use Rattle.threaded_runs.specs.closed_words.specs.Histories.{HoldsNoLock};
ghost use Rattle.leaf_tree.specs.tree_laws.specs.bucket_laws.specs.Walk.{has_one_key};
ghost use Rattle.command_line.specs.Options.{AreInRange, are_free};
ghost use Rattle.load_counts.specs.run_reports.specs.Reports.{HaveContents, Prints};
ghost use Rattle.flock_tool.specs.Gates.{HaveOwnGates};
ghost use Rattle.flock_tool.specs.Plans.{IsForAnotherTable};
ghost use Rattle.flock_tool.specs.Runs.{AreBucketsOf, words_in, answers_in, meaning_of, HasRunOn, HasRunPlan, StopsReport};
ghost use Rattle.flock_tool.specs.Streams.{gating, stream};

use crate::plan::{Plan, insertions, moves_keys};
use crate::ran::{Ran, on_table};
use crate::status::Stop;
use command_line::TableKind;
use hash_table::HashTable;
use hash_table::lock_walks::Planner;
use key_move::MoveTable;
use leaf_tree::LeafTree;
use load_counts::run_reports::{contents_stand, print_words};
use printed_traces::report_text::Sink;
use sorted_list::SortedList;
use std::alloc::{AllocError, Global};
use std::sync::Wait;
use std::thread::Threads;
use threaded_runs::run_table;
use threaded_runs::runner_gate::Gates;
use threaded_runs::serving::Served;
use version_words::{Words, words_are_reached};

/// Runs the requests of a plan on one table of the structure that its options name, those of a text that moves keys on
/// the hash table that serves it. A runner that lacks slots tries again while some of its own are in limbo, or others
/// took those that lay on the board, unless the words name a halt for a runner that is there: a halted runner would keep
/// slots in limbo. Each `get` is read without a lock where the options say so. The Err is want of memory.
pub fn run_plan<T: Threads + Wait + Sync, G: Gates>(
    rt: &T,
    alloc: Global,
    plan: &Plan,
    gates: &mut G,
) -> Result<Ran, AllocError>
    requires ranges { AreInRange plan.now.options }
    requires limits { IsWithinLimits plan.now.layout }
    requires ordered { AreInOrder plan.now.traces.requests plan.now.traces.count }
    requires served { IsForAnotherTable plan.now.options plan.now.traces → ⊥ }
    requires one_key { plan.now.traces.format ≢ 3
        → All (λ (request : Request). has_one_key request.op ≡ true) plan.now.traces.requests }
    ensures ran { IfOk result (λ ran. HasRunPlan plan.now ran
        (gating (G.halts gates.old) (G.halts gates.new) (G.asks gates.old) (G.asks gates.new)
        (G.plans gates.old) (G.plans gates.new) (G.planned gates.old) (G.planned gates.new)
        (G.returned gates.old) (G.returned gates.new))) }
    ensures gates { IfOk result (λ ran. HaveOwnGates G.Gate.halts G.Gate.asks (meaning_of ran) (words_in ran)
        (answers_in ran) plan.now.options.halts (are_free plan.now.options.reads)
        (gating (G.halts gates.old) (G.halts gates.new) (G.asks gates.old) (G.asks gates.new)
        (G.plans gates.old) (G.plans gates.new) (G.planned gates.old) (G.planned gates.new)
        (G.returned gates.old) (G.returned gates.new))) }
    ensures unplanned { OnErr result (plan.now.options.halts ≡ [] → G.plans gates.new ≡ G.plans gates.old) }
{
    match plan.options.table {
        TableKind::Hash if moves_keys(&plan.traces) => {
            let table = MoveTable::new(bucket_bits(plan));
            let (words, answers) = run_on(rt, alloc, table, plan, gates)?;
            Ok(Ran::Move(words, answers))
        }
        TableKind::Hash => {
            let table = HashTable::new(bucket_bits(plan));
            let (words, answers) = run_on(rt, alloc, table, plan, gates)?;
            Ok(Ran::Hash(words, answers))
        }
        TableKind::Tree => {
            let (words, answers) = run_on(rt, alloc, LeafTree::new(), plan, gates)?;
            Ok(Ran::Tree(words, answers))
        }
        TableKind::List => {
            let (words, answers) = run_on(rt, alloc, SortedList::new(), plan, gates)?;
            Ok(Ran::List(words, answers))
        }
    }
}

// How many buckets the hash table of this plan has, as a power of two.
fn bucket_bits(plan: &Plan) -> u32
    requires ranges { AreInRange plan.now.options }
    requires few { length plan.now.traces.requests ≤ most_requests }
    ensures bits { AreBucketsOf plan.now.options plan.now.traces.requests result }
    ensures few { result ≤ 12 }
{
    let requests = plan.traces.requests.as_slice();
    plan.options.bits_for(insertions(requests))
}

// Runs the requests of a plan on one table of this structure, which serves each of them.
fn run_on<T: Threads + Wait + Sync, S: Planner, G: Gates>(
    rt: &T,
    alloc: Global,
    structure: S,
    plan: &Plan,
    gates: &mut G,
) -> Result<(Words<S>, Vec<Served>), AllocError>
where
    S::Walk: Send + Sync,
    requires ranges { AreInRange plan.now.options }
    requires limits { IsWithinLimits plan.now.layout }
    requires ordered { AreInOrder plan.now.traces.requests plan.now.traces.count }
    requires served { All (λ (request : Request). (S.planning structure).serves request.op ≡ true)
        plan.now.traces.requests }
    ensures ran { IfOk result (λ ran. HasRunOn S.meaning (S.planning structure).per_pair structure plan.now
        ran.0 ran.1.items
        (gating (G.halts gates.old) (G.halts gates.new) (G.asks gates.old) (G.asks gates.new)
        (G.plans gates.old) (G.plans gates.new) (G.planned gates.old) (G.planned gates.new)
        (G.returned gates.old) (G.returned gates.new))) }
    ensures gates { IfOk result (λ ran. HaveOwnGates G.Gate.halts G.Gate.asks (S.meaning ran.0.structure) ran.0
        ran.1.items plan.now.options.halts (are_free plan.now.options.reads)
        (gating (G.halts gates.old) (G.halts gates.new) (G.asks gates.old) (G.asks gates.new)
        (G.plans gates.old) (G.plans gates.new) (G.planned gates.old) (G.planned gates.new)
        (G.returned gates.old) (G.returned gates.new))) }
    ensures unplanned { OnErr result (plan.now.options.halts ≡ [] → G.plans gates.new ≡ G.plans gates.old) }
{
    let runners = plan.layout.runners;
    let halts = plan.options.halts.asks(alloc, runners)?;
    let requests = plan.traces.requests.as_slice();
    let asks = halts.as_slice();
    run_table(
        rt,
        alloc,
        structure,
        plan.layout,
        requests,
        asks,
        !plan.options.halts.name_below(runners),
        plan.options.reads.are_free(),
        gates,
    )
}

/// How many pairs the words hold.
pub fn size_of<S: Planner>(alloc: Global, words: &Words<S>) -> Result<u32, AllocError>
    requires map { (S.meaning words.now.structure).is_map ≡ true }
    requires free { HoldsNoLock (S.meaning words.now.structure) words.now }
    ensures { IfOk result (λ size. (pairs : Pairs) → HaveContents (S.meaning words.now.structure) words.now pairs
        → size ≡ len pairs) }
{
    contents_stand(words);
    let pairs = words.structure().contents(alloc, words)?;
    Ok(pairs.len() as u32)
}

/// The layout of a run is within the limits, and its requests are allowed.
pub fn run_is_allowed(ran: &Ran)
    ensures limits { IsWithinLimits (words_in ran.now).layout }
    ensures requests { AreAllowed (words_in ran.now).requests }
{
    on_table!(ran, (words, _) => words_are_reached(words))
}

/// What each runner answered, in the order of their numbers.
pub fn answers(ran: &Ran) -> &[Served]
    ensures { result.now ≡ answers_in ran.now }
{
    on_table!(ran, (_, answers) => answers.as_slice())
}

// Prints the report on a closed table, and answers how many requests are unserved.
fn print_on<S: Planner, K: Sink>(
    alloc: Global,
    plan: &Plan,
    words: &Words<S>,
    sink: &mut K,
) -> Result<u32, Stop>
    requires map { (S.meaning words.now.structure).is_map ≡ true }
    requires requests { words.now.requests ≡ plan.now.traces.requests }
    requires ordered { AreInOrder plan.now.traces.requests plan.now.traces.count }
    requires free { HoldsNoLock (S.meaning words.now.structure) words.now }
    ensures prints { IfOk result (λ unserved.
        Prints (S.meaning words.now.structure) words.now plan.now.traces.count unserved (K.held sink.old)
        (K.held sink.new)) }
    ensures stops { IfErr result (λ stop.
        StopsReport (S.meaning words.now.structure) words.now plan.now.traces.count stop
        (stream (K.held sink.old) (K.held sink.new) (K.faults sink.old) (K.faults sink.new))) }
    ensures steady { OnOk result (K.faults sink.new ≡ K.faults sink.old) }
{
    let size = size_of(alloc, words)?;
    let unserved = print_words(
        alloc,
        plan.traces.count,
        words,
        plan.traces.requests.as_slice(),
        size,
        sink,
    )?;
    Ok(unserved)
}

/// Prints the report of a run, and answers how many requests are unserved.
pub fn print_run<K: Sink>(alloc: Global, plan: &Plan, ran: &Ran, sink: &mut K) -> Result<u32, Stop>
    requires requests { (words_in ran.now).requests ≡ plan.now.traces.requests }
    requires ordered { AreInOrder plan.now.traces.requests plan.now.traces.count }
    requires free { HoldsNoLock (meaning_of ran.now) (words_in ran.now) }
    ensures prints { IfOk result (λ unserved.
        Prints (meaning_of ran.now) (words_in ran.now) plan.now.traces.count unserved (K.held sink.old)
        (K.held sink.new)) }
    ensures stops { IfErr result (λ stop.
        StopsReport (meaning_of ran.now) (words_in ran.now) plan.now.traces.count stop
        (stream (K.held sink.old) (K.held sink.new) (K.faults sink.old) (K.faults sink.new))) }
    ensures steady { OnOk result (K.faults sink.new ≡ K.faults sink.old) }
{
    on_table!(ran, (words, _) => print_on(alloc, plan, words, sink))
}
