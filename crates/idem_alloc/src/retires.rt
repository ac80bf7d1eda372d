//! The retirement of a node slot.
ghost use Rattle.std.specs.Prelude.{◌≡◌, ◌+◌, true, false};
ghost use Rattle.runner_steps.specs.runner_parts.specs.State.{RunState};
ghost use Rattle.commit_log.specs.version_words.specs.TableState.{IsOf};
ghost use Rattle.commit_log.specs.Runs.{IsRunning};
ghost use Rattle.commit_log.specs.Halted.{IsHalted, IsThrough};
ghost use Rattle.commit_log.specs.Links.{links_cost};
ghost use Rattle.idem_alloc.specs.Retired.{MayRetire, HasRetired};

use commit_log::version_words::{FlockTable, Runner};
use commit_log::{Unasked, link_if_due, passes};
use runner_gate::Gate;
use runner_steps::body_terms::{StepKind, Steps};
use section_lines::structure_laws::Structure;

/// Retires the node slot, in two steps and those of a link where one is due: loads the epoch, and commits the slot.
/// Where this commit is the first of the section's runs, the slot is in the own limbo list with that epoch; else it is
/// in that of another runner.
///
/// The runner has to be in a run whose next step retires this slot. There is no refusal, and no memory is taken
/// (Ben-David, Blelloch, Wei, 2022; Fraser, 2004).
pub fn retire<S: Structure>(table: &FlockTable<S>, runner: Runner<S>, slot: u32) -> Runner<S>
    requires own { IsOf table.now runner }
    requires next { (q : RunState) × MayRetire (S.meaning table.now.structure) runner slot q }
    ensures own { IsOf table.now result }
    ensures retired { (q : RunState) → IsRunning (S.meaning table.now.structure) runner q
        → HasRetired (S.meaning table.now.structure) slot runner result q }
{
    let mut gate = Unasked;
    let mut steps = Steps::<()>::new();
    match retire_gated(table, runner, slot, &mut gate, &mut steps) {
        (runner, true) => runner,
        _ => unreachable!(),
    }
}

/// The same, counting each step and asking the gate after it: whether it let the runner go on.
pub fn retire_gated<S: Structure, G: Gate, L>(
    table: &FlockTable<S>,
    runner: Runner<S>,
    slot: u32,
    gate: &mut G,
    steps: &mut Steps<L>,
) -> (Runner<S>, bool)
    requires own { IsOf table.now runner }
    requires next { (q : RunState) × MayRetire (S.meaning table.now.structure) runner slot q }
    ensures own { IsOf table.now result.0 }
    ensures retired { result.1 ≡ true → (q : RunState) → IsRunning (S.meaning table.now.structure) runner q
        → HasRetired (S.meaning table.now.structure) slot runner result.0 q }
    ensures through { result.1 ≡ true → (q : RunState) → IsRunning (S.meaning table.now.structure) runner q
        → IsThrough (S.meaning table.now.structure) (2 + links_cost 1 q) runner result.0
        (G.halts gate.old) (G.halts gate.new) (G.asks gate.old) (G.asks gate.new) steps.old.count steps.new.count }
    ensures halted { result.1 ≡ false → (q : RunState) → IsRunning (S.meaning table.now.structure) runner q
        → IsHalted (S.meaning table.now.structure) (2 + links_cost 1 q) runner result.0
        (G.halts gate.old) (G.halts gate.new) (G.asks gate.old) (G.asks gate.new) steps.old.count steps.new.count }
{
    let (runner, _) = table.epoch_for_retire(runner);
    if !passes(gate, steps, StepKind::EpochForRetire) {
        return (runner, false);
    }
    let (runner, linked) = link_if_due(table, runner, gate, steps);
    if !linked {
        return (runner, false);
    }
    let (runner, _) = table.retire_commit(runner, slot);
    if !passes(gate, steps, StepKind::RetireCommit) {
        return (runner, false);
    }
    (runner, true)
}
