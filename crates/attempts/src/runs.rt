//! An attempt's own section: it is run to its end, and answered by.
ghost use Rattle.std.specs.Prelude.{◌+◌, length, true, false, Ok};
ghost use Rattle.machine_states.specs.body_terms.specs.Trail.{Agreed};
ghost use Rattle.machine_states.specs.body_terms.specs.declared.thunk.Thunk.{Thunk};
ghost use Rattle.version_words.specs.RunnerState.{RunnerState};
ghost use Rattle.version_words.specs.TableState.{IsOf};
ghost use Rattle.caller_facts.specs.Counted.{IsSeen};
ghost use Rattle.attempts.specs.Course.{HasTried, HasEnded};
ghost use Rattle.attempts.specs.Attempts.{most_of_run};
ghost use Rattle.attempts.specs.Rests.{Rests};

use crate::answers::Attempt;
use crate::learns::learn;
use crate::refusals::section_left;
use crate::turns::turn_away;
use caller_facts::goes_on;
use caller_facts::lock_walks::Planner;
use caller_facts::try_lock::{RunEnd, Section, run_section};
use lock_words::{stale_words_differ, taken_names_stand};
use machine_states::body_terms::{Outcome, StepKind, Steps};
use machine_states::map_history::Request;
use runner_gate::Gate;
use version_words::{FlockTable, Runner};

/// Lets the guard of the own section go, which was run to its end with this outcome, and leaves: where it answered,
/// with the words of the request, else with the refusal by which it left.
pub fn conclude<S: Planner, G: Gate, L>(
    table: &FlockTable<S>,
    runner: Runner<S>,
    request: &Request,
    section: Section,
    outcome: Outcome,
    gate: &mut G,
    steps: &mut Steps<L>,
) -> (Runner<S>, Attempt)
    requires own { IsOf table.now runner }
    requires ended { (old : RunnerState S) × (thunk : Thunk) × (trail : Agreed)
        × HasEnded (S.meaning table.now.structure) (S.planning table.now.structure)
        request.now section thunk outcome trail old runner }
    ensures own { IsOf table.now result.0 }
    ensures rests { (old : RunnerState S) (thunk : Thunk) (trail : Agreed)
        → (ended : HasEnded (S.meaning table.now.structure) (S.planning table.now.structure)
        request.now section thunk outcome trail old runner)
        → Rests (S.meaning table.now.structure) (S.planning table.now.structure)
        request.now true (length ended.tries.readings + ended.made) 0 result.1 old runner result.0
        (IsSeen G.halts G.asks)
        (G.halts gate.old) (G.halts gate.new) (G.asks gate.old) (G.asks gate.new) steps.old.count steps.new.count }
{
    let _ = section;
    let runner = table.guard(runner, None);
    if let Outcome::Answered(_) = outcome {
        learn(table, runner, request)
    } else {
        stale_words_differ(table.structure());
        taken_names_stand(table.structure());
        turn_away(table, runner, section_left(outcome), gate, steps)
    }
}

/// Runs the own section, which was just published, to its end, and answers by its outcome. The gate is asked once
/// before.
pub fn run_own<S: Planner, G: Gate, L>(
    table: &FlockTable<S>,
    runner: Runner<S>,
    request: &Request,
    section: Section,
    gate: &mut G,
    steps: &mut Steps<L>,
) -> (Runner<S>, Attempt)
    requires own { IsOf table.now runner }
    requires tried { (old : RunnerState S) × (thunk : Thunk)
        × HasTried (S.meaning table.now.structure) (S.planning table.now.structure)
        request.now thunk (Ok section) old runner }
    ensures own { IsOf table.now result.0 }
    ensures rests { (old : RunnerState S) (thunk : Thunk)
        → (tried : HasTried (S.meaning table.now.structure) (S.planning table.now.structure)
        request.now thunk (Ok section) old runner)
        → Rests (S.meaning table.now.structure) (S.planning table.now.structure)
        request.now false (length tried.readings) most_of_run result.1 old runner result.0 (IsSeen G.halts G.asks)
        (G.halts gate.old) (G.halts gate.new) (G.asks gate.old) (G.asks gate.new) steps.old.count steps.new.count }
{
    if !goes_on(gate, StepKind::Hold) {
        return (runner, Attempt::Halted);
    }
    let (runner, end) = run_section(table, runner, &section, gate, steps);
    match end {
        RunEnd::Done(outcome, _) => conclude(table, runner, request, section, outcome, gate, steps),
        RunEnd::Halted => (runner, Attempt::Halted),
    }
}
