//! One attempt of a request.
ghost use Rattle.std.specs.Prelude.{false};
ghost use Rattle.machine_states.specs.structure_laws.specs.Cells.{slots};
ghost use Rattle.version_words.specs.RunnerState.{RunnerState};
ghost use Rattle.version_words.specs.TableState.{IsOf};
ghost use Rattle.caller_facts.specs.Counted.{IsSeen};
ghost use Rattle.attempts.specs.Course.{HasEntered};
ghost use Rattle.caller_facts.specs.Asking.{MayAttempt};
ghost use Rattle.attempts.specs.Attempts.{most_of_attempt, Attempts};
ghost use Rattle.attempts.specs.Rests.{Rests};

use crate::answers::Attempt;
use crate::reclaims::reclaim;
use crate::refusals::plan_refused;
use crate::reserves::reserve_slots;
use crate::tries::try_section;
use crate::turns::turn_away;
use caller_facts::goes_on;
use caller_facts::lock_walks::Planner;
use caller_facts::lock_walks::epoch_slots::enter;
use caller_facts::try_lock::Planned;
use machine_states::body_terms::{StepKind, Steps};
use machine_states::map_history::Request;
use runner_gate::Gate;
use version_words::{FlockTable, Runner};

/// Plans the request, behind the entry, and tries the section that was planned; or leaves where the plan was refused.
pub fn plan_and_try<S: Planner, G: Gate, L>(
    table: &FlockTable<S>,
    runner: Runner<S>,
    request: &Request,
    gate: &mut G,
    steps: &mut Steps<L>,
) -> (Runner<S>, Attempt)
    requires own { IsOf table.now runner }
    requires entered { (old : RunnerState S)
        × HasEntered (S.meaning table.now.structure) (S.planning table.now.structure) request.now old runner }
    ensures own { IsOf table.now result.0 }
    ensures rests { (old : RunnerState S)
        → HasEntered (S.meaning table.now.structure) (S.planning table.now.structure) request.now old runner
        → Rests (S.meaning table.now.structure) (S.planning table.now.structure) request.now false 0
        (most_of_attempt (slots (S.meaning table.now.structure) table.now.layout)) result.1 old runner result.0
        (IsSeen G.halts G.asks)
        (G.halts gate.old) (G.halts gate.new) (G.asks gate.old) (G.asks gate.new) steps.old.count steps.new.count }
{
    let (runner, planned) = table.structure().plan(table, runner, request, gate, steps);
    match planned {
        Planned::Thunk(thunk) => try_section(table, runner, request, &thunk, gate, steps),
        Planned::Halted => (runner, Attempt::Halted),
        refused => turn_away(table, runner, plan_refused(refused), gate, steps),
    }
}

/// Attempts a request once.
///
/// The runner collects and sweeps where it has to, gives node slots to the board or takes some there, makes sure of two
/// node slots, one descriptor and the blocks for two logs, enters, plans the request's section, publishes it in its
/// lock, runs it, lets its guard go and leaves. The request is one of the table's, of a trace that this runner serves;
/// the runner knows the answers of the trace's earlier requests and not yet this one's; it is idle, with an empty hand.
///
/// - `Done`: the own section answered. The request stands once in the one history, with this stamp, which is above
///   those of all requests that were answered as the attempt began, by whomever, and with this reply; its stamp word
///   and its reply word hold them.
/// - `Busy`: a lock was held, as the plan read it, as the publication met it, or as the own section found it by its
///   outcome. The section that the word names is done at return: the runner ran it to its end, or found, as it watched
///   the lock, that the section was done.
/// - `Stale`: a word was read, and then another one at the same place; or a node that was reached has been taken out.
/// - `Far`: the walk loaded as many links as there are node slots, and eight more, and came to no end.
/// - `Spent`: a lock or a cell has too few versions left.
/// - `Short`: after three scans in a row and a walk over the board fewer than two node slots were free, or after a sweep
///   no descriptor, since guard words of other runners name all that are in limbo, or fewer blocks than the logs of its
///   own section and of one that it helps may want, since they keep the others; node slots are asked first, and blocks
///   last.
/// - `Halted`: the gate halted the runner. Exactly then its count of halts rose.
///
/// After every answer but `Halted` the runner is idle and may attempt again. After every answer but `Done` and `Halted`
/// nobody has served the request, and the section that was published for it, if any, left without an effect and is
/// retired. After `Halted` the runner stays entered, and can only be joined; a section that it left published is for
/// this request, and whoever meets it runs it to its end.
///
/// The gate is asked once behind the entry, after each counted step, and once more where a section was published. No
/// memory is taken, and nothing waits (Ben-David, Blelloch, Wei, *Lock-free locks revisited*, 2022).
pub fn attempt<S: Planner, G: Gate, L>(
    table: &FlockTable<S>,
    runner: Runner<S>,
    request: &Request,
    gate: &mut G,
    steps: &mut Steps<L>,
) -> (Runner<S>, Attempt)
    requires own { IsOf table.now runner }
    requires next { MayAttempt (S.planning table.now.structure) request.now runner }
    ensures own { IsOf table.now result.0 }
    ensures attempts { Attempts (S.meaning table.now.structure) (S.planning table.now.structure)
        request.now result.1 runner result.0 (IsSeen G.halts G.asks)
        (G.halts gate.old) (G.halts gate.new) (G.asks gate.old) (G.asks gate.new) steps.old.count steps.new.count }
{
    let runner = reclaim(table, runner);
    match reserve_slots(runner) {
        Ok(runner) => {
            let runner = enter(table, runner);
            if !goes_on(gate, StepKind::Entered) {
                return (runner, Attempt::Halted);
            }
            plan_and_try(table, runner, request, gate, steps)
        }
        Err((runner, short)) => (runner, Attempt::Short(short)),
    }
}
