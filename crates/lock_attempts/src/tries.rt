//! The publication of a planned section.
ghost use Rattle.std.specs.Prelude.{◌≡◌, length, false};
ghost use Rattle.machine_states.specs.map_history.specs.declared.op.Request.{Request};
ghost use Rattle.machine_states.specs.body_terms.specs.declared.thunk.Thunk.{Thunk};
ghost use Rattle.machine_states.specs.structure_laws.specs.Scene.{Readings};
ghost use Rattle.version_words.specs.RunnerState.{RunnerState};
ghost use Rattle.version_words.specs.TableState.{IsOf};
ghost use Rattle.attempts.specs.try_lock.specs.Planning.{Planning};
ghost use Rattle.attempts.specs.try_lock.specs.declared.planned.Planned.TheVariants as plans;
ghost use Rattle.attempts.specs.caller_facts.specs.Counted.{IsSeen};
ghost use Rattle.attempts.specs.Course.{HasPlanned};
ghost use Rattle.attempts.specs.Attempts.{most_of_run};
ghost use Rattle.attempts.specs.lock_walks.specs.Wants.{WantsWereRead};
ghost use Rattle.lock_attempts.specs.Parts.{SectionRests};

use crate::runs::run_own;
use attempts::lock_walks::try_lock::publish;
use attempts::{Attempt, lock_refused, turn_away};
use machine_states::body_terms::{Steps, Thunk};
use machine_states::structure_laws::Structure;
use runner_gate::Gate;
use version_words::{FlockTable, Runner};

/// Publishes the section of this thunk, which was just planned, and runs it; or leaves where the lock refused it.
pub fn try_section<S: Structure, G: Gate, L>(
    table: &FlockTable<S>,
    runner: Runner<S>,
    thunk: &Thunk,
    gate: &mut G,
    steps: &mut Steps<L>,
) -> (Runner<S>, Result<u64, Attempt>)
    requires own { IsOf table.now runner }
    requires wants { WantsWereRead (S.meaning table.now.structure) }
    requires planned { (planning : Planning) × (request : Request) × (old : RunnerState S) × (readings : Readings)
        × HasPlanned (S.meaning table.now.structure) planning request readings (plans.Thunk thunk.now) old runner }
    ensures own { IsOf table.now result.0 }
    ensures rests { (planning : Planning) (request : Request) (own : Readings → Thunk) (old : RunnerState S)
        (readings : Readings)
        → HasPlanned (S.meaning table.now.structure) planning request readings (plans.Thunk thunk.now) old runner
        → thunk.now ≡ own readings
        → SectionRests (S.meaning table.now.structure) planning request own false (length readings) most_of_run
        result.1 old runner result.0 (IsSeen G.halts G.asks)
        (G.halts gate.old) (G.halts gate.new) (G.asks gate.old) (G.asks gate.new) steps.old.count steps.new.count }
{
    let (runner, published) = publish(table, runner, thunk);
    match published {
        Ok(section) => run_own(table, runner, section, gate, steps),
        Err(refused) => {
            let runner = table.guard(runner, None);
            let (runner, answer) = turn_away(
                table,
                runner,
                lock_refused(thunk.lock, refused),
                gate,
                steps,
            );
            (runner, Err(answer))
        }
    }
}
