//! The load of a cell.
ghost use Rattle.std.specs.Prelude.{◌+◌, IfSome, IfNone};
ghost use Rattle.machine_states.specs.runner_parts.specs.State.{RunState};
ghost use Rattle.commit_log.specs.version_words.specs.TableState.{IsOf};
ghost use Rattle.commit_log.specs.Runs.{IsRunning};
ghost use Rattle.commit_log.specs.Halted.{IsHalted, IsThrough};
ghost use Rattle.commit_log.specs.Links.{links_cost};
ghost use Rattle.idem_cell.specs.Loaded.{MayLoad, HasLoaded};

use commit_log::version_words::{FlockTable, Runner};
use commit_log::{Unasked, commit, link_if_due, passes};
use machine_states::body_terms::{Place, StepKind, Steps, Word};
use machine_states::structure_laws::Structure;
use runner_gate::Gate;

/// Loads the cell and agrees on its word, in two steps, and those of a link where one is due. Answers the agreed word:
/// the first one that a run of the section committed here, which may be older than the one in the cell.
///
/// The runner has to be in a run whose next step loads this cell. There is no refusal, and no memory is taken
/// (Ben-David, Blelloch, Wei, 2022).
pub fn load<S: Structure>(
    table: &FlockTable<S>,
    runner: Runner<S>,
    place: Place,
) -> (Runner<S>, Word)
    requires own { IsOf table.now runner }
    requires next { (q : RunState) × MayLoad (S.meaning table.now.structure) runner place q }
    ensures own { IsOf table.now result.0 }
    ensures loaded { (q : RunState) → IsRunning (S.meaning table.now.structure) runner q
        → HasLoaded (S.meaning table.now.structure) place result.1 runner result.0 q }
{
    let mut gate = Unasked;
    let mut steps = Steps::<()>::new();
    match load_gated(table, runner, place, &mut gate, &mut steps) {
        (runner, Some(word)) => (runner, word),
        _ => unreachable!(),
    }
}

/// The same, counting each step and asking the gate after it. None where it halted the runner.
pub fn load_gated<S: Structure, G: Gate, L>(
    table: &FlockTable<S>,
    runner: Runner<S>,
    place: Place,
    gate: &mut G,
    steps: &mut Steps<L>,
) -> (Runner<S>, Option<Word>)
    requires own { IsOf table.now runner }
    requires next { (q : RunState) × MayLoad (S.meaning table.now.structure) runner place q }
    ensures own { IsOf table.now result.0 }
    ensures loaded { IfSome result.1 (λ word. (q : RunState) → IsRunning (S.meaning table.now.structure) runner q
        → HasLoaded (S.meaning table.now.structure) place word runner result.0 q) }
    ensures through { IfSome result.1 (λ word. (q : RunState) → IsRunning (S.meaning table.now.structure) runner q
        → IsThrough (S.meaning table.now.structure) (2 + links_cost 1 q) runner result.0
        (G.halts gate.old) (G.halts gate.new) (G.asks gate.old) (G.asks gate.new) steps.old.count steps.new.count) }
    ensures halted { IfNone result.1 ((q : RunState) → IsRunning (S.meaning table.now.structure) runner q
        → IsHalted (S.meaning table.now.structure) (2 + links_cost 1 q) runner result.0
        (G.halts gate.old) (G.halts gate.new) (G.asks gate.old) (G.asks gate.new) steps.old.count steps.new.count) }
{
    let (runner, word) = table.load_cell(runner, place);
    if !passes(gate, steps, StepKind::LoadCell) {
        return (runner, None);
    }
    let (runner, linked) = link_if_due(table, runner, gate, steps);
    if !linked {
        return (runner, None);
    }
    let (runner, agreed, _) = commit(table, runner, word.bits());
    if !passes(gate, steps, StepKind::Commit) {
        return (runner, None);
    }
    (runner, Some(Word::from_bits(agreed)))
}
