//! The publication of an attempt.
ghost use Rattle.std.specs.Prelude.{length, false};
ghost use Rattle.machine_states.specs.structure_laws.specs.Scene.{Readings};
ghost use Rattle.version_words.specs.RunnerState.{RunnerState};
ghost use Rattle.version_words.specs.TableState.{IsOf};
ghost use Rattle.caller_facts.specs.try_lock.specs.declared.planned.Planned.TheVariants as plans;
ghost use Rattle.caller_facts.specs.Counted.{IsSeen};
ghost use Rattle.attempts.specs.Course.{HasPlanned};
ghost use Rattle.attempts.specs.Attempts.{most_of_run};
ghost use Rattle.attempts.specs.Rests.{Rests};

use crate::answers::Attempt;
use crate::refusals::lock_refused;
use crate::runs::run_own;
use crate::turns::turn_away;
use caller_facts::lock_walks::Planner;
use caller_facts::try_lock::publish;
use machine_states::body_terms::{Steps, Thunk};
use machine_states::map_history::Request;
use runner_gate::Gate;
use version_words::{FlockTable, Runner};

/// Publishes the section of this thunk, which was just planned for the request, and runs it; or leaves where the lock
/// refused it.
pub fn try_section<S: Planner, G: Gate, L>(
    table: &FlockTable<S>,
    runner: Runner<S>,
    request: &Request,
    thunk: &Thunk,
    gate: &mut G,
    steps: &mut Steps<L>,
) -> (Runner<S>, Attempt)
    requires own { IsOf table.now runner }
    requires planned { (old : RunnerState S) × (readings : Readings)
        × HasPlanned (S.meaning table.now.structure) (S.planning table.now.structure)
        request.now readings (plans.Thunk thunk.now) old runner }
    ensures own { IsOf table.now result.0 }
    ensures rests { (old : RunnerState S) (readings : Readings)
        → HasPlanned (S.meaning table.now.structure) (S.planning table.now.structure)
        request.now readings (plans.Thunk thunk.now) old runner
        → Rests (S.meaning table.now.structure) (S.planning table.now.structure)
        request.now false (length readings) most_of_run result.1 old runner result.0 (IsSeen G.halts G.asks)
        (G.halts gate.old) (G.halts gate.new) (G.asks gate.old) (G.asks gate.new) steps.old.count steps.new.count }
{
    let (runner, published) = publish(table, runner, thunk);
    match published {
        Ok(section) => run_own(table, runner, request, section, gate, steps),
        Err(refused) => {
            let runner = table.guard(runner, None);
            turn_away(
                table,
                runner,
                lock_refused(thunk.lock, refused),
                gate,
                steps,
            )
        }
    }
}
