//! The run of an own section, and what is answered by it.
ghost use Rattle.std.specs.Prelude.{◌≡◌, ◌+◌, length, true, false, Ok};
ghost use Rattle.machine_states.specs.map_history.specs.declared.op.Request.{Request};
ghost use Rattle.machine_states.specs.body_terms.specs.Trail.{Agreed};
ghost use Rattle.machine_states.specs.body_terms.specs.declared.thunk.Thunk.{Thunk};
ghost use Rattle.machine_states.specs.structure_laws.specs.Scene.{Readings};
ghost use Rattle.version_words.specs.RunnerState.{RunnerState};
ghost use Rattle.version_words.specs.TableState.{IsOf};
ghost use Rattle.attempts.specs.try_lock.specs.Planning.{Planning};
ghost use Rattle.attempts.specs.caller_facts.specs.Counted.{IsSeen};
ghost use Rattle.attempts.specs.Course.{HasTried, HasEnded};
ghost use Rattle.attempts.specs.Attempts.{most_of_run};
ghost use Rattle.attempts.specs.lock_walks.specs.Wants.{WantsWereRead};
ghost use Rattle.lock_attempts.specs.Parts.{SectionRests};

use attempts::epoch_slots::exit;
use attempts::lock_walks::try_lock::{RunEnd, Section, run_section};
use attempts::lock_words::{stale_words_differ, taken_names_stand};
use attempts::{Attempt, goes_on, section_left, turn_away};
use machine_states::body_terms::{Outcome, StepKind, Steps};
use machine_states::structure_laws::Structure;
use runner_gate::Gate;
use version_words::{FlockTable, Runner};

/// Lets the guard of the own section go, which was run to its end with this outcome, and leaves: where it answered,
/// with that number, else with the refusal by which it left.
fn conclude<S: Structure, G: Gate, L>(
    table: &FlockTable<S>,
    runner: Runner<S>,
    section: Section,
    outcome: Outcome,
    gate: &mut G,
    steps: &mut Steps<L>,
) -> (Runner<S>, Result<u64, Attempt>)
    requires own { IsOf table.now runner }
    requires wants { WantsWereRead (S.meaning table.now.structure) }
    requires ended { (planning : Planning) × (request : Request) × (old : RunnerState S) × (thunk : Thunk)
        × (trail : Agreed)
        × HasEnded (S.meaning table.now.structure) planning request section thunk outcome trail old runner }
    ensures own { IsOf table.now result.0 }
    ensures rests { (planning : Planning) (request : Request) (own : Readings → Thunk) (old : RunnerState S)
        (thunk : Thunk) (trail : Agreed)
        → (ended : HasEnded (S.meaning table.now.structure) planning request section thunk outcome trail old runner)
        → thunk ≡ own ended.tries.readings
        → SectionRests (S.meaning table.now.structure) planning request own true
        (length ended.tries.readings + ended.made) 0 result.1 old runner result.0 (IsSeen G.halts G.asks)
        (G.halts gate.old) (G.halts gate.new) (G.asks gate.old) (G.asks gate.new) steps.old.count steps.new.count }
{
    let _ = section;
    stale_words_differ(table.structure());
    taken_names_stand(table.structure());
    let runner = table.guard(runner, None);
    if let Outcome::Answered(reply) = outcome {
        (exit(table, runner), Ok(reply))
    } else {
        let (runner, answer) = turn_away(table, runner, section_left(outcome), gate, steps);
        (runner, Err(answer))
    }
}

/// Runs the own section, which was just published, to its end, lets its guard go and leaves. The gate is asked once
/// before.
pub fn run_own<S: Structure, G: Gate, L>(
    table: &FlockTable<S>,
    runner: Runner<S>,
    section: Section,
    gate: &mut G,
    steps: &mut Steps<L>,
) -> (Runner<S>, Result<u64, Attempt>)
    requires own { IsOf table.now runner }
    requires wants { WantsWereRead (S.meaning table.now.structure) }
    requires tried { (planning : Planning) × (request : Request) × (old : RunnerState S) × (thunk : Thunk)
        × HasTried (S.meaning table.now.structure) planning request thunk (Ok section) old runner }
    ensures own { IsOf table.now result.0 }
    ensures rests { (planning : Planning) (request : Request) (own : Readings → Thunk) (old : RunnerState S)
        (thunk : Thunk)
        → (tried : HasTried (S.meaning table.now.structure) planning request thunk (Ok section) old runner)
        → thunk ≡ own tried.readings
        → SectionRests (S.meaning table.now.structure) planning request own false (length tried.readings) most_of_run
        result.1 old runner result.0 (IsSeen G.halts G.asks)
        (G.halts gate.old) (G.halts gate.new) (G.asks gate.old) (G.asks gate.new) steps.old.count steps.new.count }
{
    if !goes_on(gate, StepKind::Hold) {
        return (runner, Err(Attempt::Halted));
    }
    let (runner, end) = run_section(table, runner, &section, gate, steps);
    match end {
        RunEnd::Done(outcome, _) => conclude(table, runner, section, outcome, gate, steps),
        RunEnd::Halted => (runner, Err(Attempt::Halted)),
    }
}
