//! Nodes that a run makes.
ghost use Rattle.std.specs.Prelude.{◌≡◌, ◌+◌, length, Some, true, false, IfSome, IfNone};
ghost use Rattle.runner_steps.specs.InRun.{last_of};
ghost use Rattle.runner_steps.specs.runner_parts.specs.State.{RunState};
ghost use Rattle.commit_log.specs.version_words.specs.TableState.{IsOf};
ghost use Rattle.commit_log.specs.Runs.{IsRunning};
ghost use Rattle.commit_log.specs.Asked.{IsAsked};
ghost use Rattle.commit_log.specs.Halted.{IsHalted, IsThrough};
ghost use Rattle.commit_log.specs.Links.{links_cost};
ghost use Rattle.idem_alloc.specs.Numbers.{number_of, numbers_of};
ghost use Rattle.idem_alloc.specs.Made.{MayFill, HasFilled, MayMake, IsFilling, HasMade};

use commit_log::version_words::{FlockTable, Runner};
use commit_log::{Unasked, link_if_due, passes};
use runner_gate::Gate;
use runner_steps::body_terms::{Init, StepKind, Steps, Value, Word};
use section_lines::structure_laws::Structure;

/// Fills one cell of the slot that the run's Make prepares, in two steps: loads it, and stores the value with the next
/// version. Each step is counted, and the gate is asked after it: whether it let the runner go on.
fn fill_gated<S: Structure, G: Gate, L>(
    table: &FlockTable<S>,
    runner: Runner<S>,
    slot: u32,
    cell: u32,
    value: u32,
    gate: &mut G,
    steps: &mut Steps<L>,
) -> (Runner<S>, bool)
    requires own { IsOf table.now runner }
    requires next { (q : RunState) × MayFill (S.meaning table.now.structure) runner slot cell value q }
    ensures own { IsOf table.now result.0 }
    ensures filled { result.1 ≡ true → (q : RunState) → IsRunning (S.meaning table.now.structure) runner q
        → HasFilled (S.meaning table.now.structure) slot cell value runner result.0 q }
    ensures asked { result.1 ≡ true → IsAsked 2 true
        (G.halts gate.old) (G.halts gate.new) (G.asks gate.old) (G.asks gate.new) steps.old.count steps.new.count }
    ensures halted { result.1 ≡ false → IsHalted (S.meaning table.now.structure) 2 runner result.0
        (G.halts gate.old) (G.halts gate.new) (G.asks gate.old) (G.asks gate.new) steps.old.count steps.new.count }
{
    let (runner, found) = table.private_load(runner, slot, cell);
    if !passes(gate, steps, StepKind::Private) {
        return (runner, false);
    }
    let next = Word::from_bits(found).next(value);
    let runner = table.private_store(runner, slot, cell, next.bits());
    if !passes(gate, steps, StepKind::Private) {
        return (runner, false);
    }
    (runner, true)
}

/// Fills each cell of the slot in turn, as `fill_gated` does.
fn fill_all<S: Structure, G: Gate, L>(
    table: &FlockTable<S>,
    runner: Runner<S>,
    slot: u32,
    values: &[u32],
    gate: &mut G,
    steps: &mut Steps<L>,
) -> (Runner<S>, bool)
    requires own { IsOf table.now runner }
    requires next { (q : RunState) × MayMake (S.meaning table.now.structure) runner values.now q }
    requires free { last_of runner.part.nodes.free ≡ Some slot }
    requires five { length values.now ≡ 5 }
    ensures own { IsOf table.now result.0 }
    ensures filled { result.1 ≡ true → (q : RunState) → IsRunning (S.meaning table.now.structure) runner q
        → IsFilling (S.meaning table.now.structure) slot 5 runner result.0 q }
    ensures asked { result.1 ≡ true → IsAsked 10 true
        (G.halts gate.old) (G.halts gate.new) (G.asks gate.old) (G.asks gate.new) steps.old.count steps.new.count }
    ensures halted { result.1 ≡ false → IsHalted (S.meaning table.now.structure) 10 runner result.0
        (G.halts gate.old) (G.halts gate.new) (G.asks gate.old) (G.asks gate.new) steps.old.count steps.new.count }
{
    let mut runner = runner;
    for cell in 0..5u32 {
        let value = values[cell as usize];
        let (filled, going) = fill_gated(table, runner, slot, cell, value, gate, steps);
        runner = filled;
        if !going {
            return (runner, false);
        }
    }
    (runner, true)
}

/// The number that this value gives a cell. What a register holds is put in its place before.
fn number_of(value: Value) -> u32
    ensures { result ≡ number_of value }
{
    match value {
        Value::Const(number) => number,
        _ => 0,
    }
}

/// The numbers that these values give a new node's cells.
fn numbers_of(init: &Init) -> [u32; 5]
    ensures { result ≡ numbers_of init.now }
{
    let values = init.cells;
    [
        number_of(values[0]),
        number_of(values[1]),
        number_of(values[2]),
        number_of(values[3]),
        number_of(values[4]),
    ]
}

/// Makes a node with these values, in eleven steps and those of a link where one is due: the last slot of the own free
/// list is filled cell by cell, and its number is agreed on. Answers the agreed slot: the first one that a run of the
/// section committed here. Where that is another one, the own slot is free again, or worn where one of its cells came
/// to the greatest version.
///
/// The runner has to be in a run whose next step makes this node, with a reserve of one node slot. Each value is the
/// number that its cell gets: where the step names a register, the caller puts what the register holds, since a runner
/// keeps no registers. There is no refusal, and no memory is taken (Ben-David, Blelloch, Wei, 2022).
pub fn make<S: Structure>(table: &FlockTable<S>, runner: Runner<S>, init: &Init) -> (Runner<S>, u32)
    requires own { IsOf table.now runner }
    requires next { (q : RunState) × MayMake (S.meaning table.now.structure) runner (numbers_of init.now) q }
    ensures own { IsOf table.now result.0 }
    ensures made { (q : RunState) → IsRunning (S.meaning table.now.structure) runner q
        → HasMade (S.meaning table.now.structure) result.1 runner result.0 q }
{
    let mut gate = Unasked;
    let mut steps = Steps::<()>::new();
    let values = numbers_of(init);
    let (runner, made) = make_gated(table, runner, &values, &mut gate, &mut steps);
    match made {
        Some(slot) => (runner, slot),
        None => unreachable!(),
    }
}

/// The same with these numbers, counting each step and asking the gate after it. None where it halted the runner.
pub fn make_gated<S: Structure, G: Gate, L>(
    table: &FlockTable<S>,
    runner: Runner<S>,
    values: &[u32],
    gate: &mut G,
    steps: &mut Steps<L>,
) -> (Runner<S>, Option<u32>)
    requires own { IsOf table.now runner }
    requires next { (q : RunState) × MayMake (S.meaning table.now.structure) runner values.now q }
    requires five { length values.now ≡ 5 }
    ensures own { IsOf table.now result.0 }
    ensures made { IfSome result.1 (λ agreed. (q : RunState) → IsRunning (S.meaning table.now.structure) runner q
        → HasMade (S.meaning table.now.structure) agreed runner result.0 q) }
    ensures through { IfSome result.1 (λ agreed. (q : RunState) → IsRunning (S.meaning table.now.structure) runner q
        → IsThrough (S.meaning table.now.structure) (11 + links_cost 1 q) runner result.0
        (G.halts gate.old) (G.halts gate.new) (G.asks gate.old) (G.asks gate.new) steps.old.count steps.new.count) }
    ensures halted { IfNone result.1 ((q : RunState) → IsRunning (S.meaning table.now.structure) runner q
        → IsHalted (S.meaning table.now.structure) (11 + links_cost 1 q) runner result.0
        (G.halts gate.old) (G.halts gate.new) (G.asks gate.old) (G.asks gate.new) steps.old.count steps.new.count) }
{
    let free = runner.free_nodes();
    let slot = free[free.len() - 1];
    let (runner, filled) = fill_all(table, runner, slot, values, gate, steps);
    if !filled {
        return (runner, None);
    }
    let (runner, linked) = link_if_due(table, runner, gate, steps);
    if !linked {
        return (runner, None);
    }
    let (runner, agreed, _) = table.make_commit(runner, slot);
    if !passes(gate, steps, StepKind::MakeCommit) {
        return (runner, None);
    }
    (runner, Some(agreed))
}
