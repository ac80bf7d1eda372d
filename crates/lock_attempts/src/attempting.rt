//! One attempt of a ticket's section.
ghost use Rattle.std.specs.Prelude.{◌≡◌, false};
ghost use Rattle.machine_states.specs.structure_laws.specs.Cells.{slots};
ghost use Rattle.version_words.specs.RunnerState.{RunnerState};
ghost use Rattle.version_words.specs.TableState.{IsOf};
ghost use Rattle.attempts.specs.lock_walks.specs.Way.{Leads};
ghost use Rattle.attempts.specs.lock_walks.specs.Own.{own_thunk};
ghost use Rattle.attempts.specs.caller_facts.specs.Counted.{IsSeen};
ghost use Rattle.attempts.specs.Course.{HasEntered};
ghost use Rattle.attempts.specs.caller_facts.specs.Asking.{MayAttempt};
ghost use Rattle.attempts.specs.Attempts.{most_of_attempt};
ghost use Rattle.attempts.specs.lock_walks.specs.Wants.{WantsWereRead};
ghost use Rattle.lock_attempts.specs.Sections.{SectionAttempts};
ghost use Rattle.lock_attempts.specs.Parts.{SectionRests};

use crate::tries::try_section;
use attempts::epoch_slots::enter;
use attempts::lock_walks::try_lock::Planned;
use attempts::lock_walks::{Walker, plan_by};
use attempts::{Attempt, goes_on, plan_refused, reclaim, reserve_slots, turn_away};
use machine_states::body_terms::{StepKind, Steps};
use machine_states::map_history::Request;
use machine_states::structure_laws::Structure;
use runner_gate::Gate;
use version_words::{FlockTable, Runner};

/// Plans the section by this walk, behind the entry, and tries it; or leaves where the plan was refused.
fn plan_and_try<S: Structure, W: Walker, G: Gate, L>(
    table: &FlockTable<S>,
    runner: Runner<S>,
    request: &Request,
    walk: W,
    gate: &mut G,
    steps: &mut Steps<L>,
) -> (Runner<S>, Result<u64, Attempt>)
    requires own { IsOf table.now runner }
    requires wants { WantsWereRead (S.meaning table.now.structure) }
    requires op { W.way.op walk ≡ request.now.op }
    requires leads { Leads W.way (S.meaning table.now.structure) table.now.layout walk }
    requires entered { (old : RunnerState S)
        × HasEntered (S.meaning table.now.structure) (W.way.planning walk) request.now old runner }
    ensures own { IsOf table.now result.0 }
    ensures rests { (old : RunnerState S)
        → HasEntered (S.meaning table.now.structure) (W.way.planning walk) request.now old runner
        → SectionRests (S.meaning table.now.structure) (W.way.planning walk) request.now
        (own_thunk W.way walk request.now.number) false 0
        (most_of_attempt (slots (S.meaning table.now.structure) table.now.layout)) result.1 old runner result.0
        (IsSeen G.halts G.asks)
        (G.halts gate.old) (G.halts gate.new) (G.asks gate.old) (G.asks gate.new) steps.old.count steps.new.count }
{
    let (runner, planned) = plan_by(table, runner, request, walk, gate, steps);
    match planned {
        Planned::Thunk(thunk) => try_section(table, runner, &thunk, gate, steps),
        Planned::Halted => (runner, Err(Attempt::Halted)),
        refused => {
            let (runner, answer) = turn_away(table, runner, plan_refused(refused), gate, steps);
            (runner, Err(answer))
        }
    }
}

/// Attempts a ticket's section once.
///
/// The worker collects and sweeps where it has to, makes sure of two node slots, one descriptor and the blocks for two
/// logs, enters, plans the section by this walk, publishes it in its lock, runs it, lets its guard go and leaves. The
/// ticket is one of the worker's own requests, the next one of its trace; the worker is idle, with an empty hand. The
/// walk has loaded nothing, and leads a plan on this structure, whose sections want what was read.
///
/// - `Ok`: the section that was planned happened once, and answered with this number: its thunk is the walk's own, by
///   the words that the walk read; each word that it wants was the agreed one, and each of its Stores moved its cell in
///   one event, from the agreed word to the one that its body says, whoever ran it. The ticket is used from then on.
/// - `Busy`: a lock was held. The section that its word names is done at return: the worker ran it to its end, or
///   found, as it watched the lock, that the section was done.
/// - `Stale`: a word was read, and then another one at the same place.
/// - `Far`: the walk is too long, by its own plan.
/// - `Spent`: a lock or a cell has too few versions left.
/// - `Short`: after three scans in a row and a walk over the board fewer than two node slots were free, or after a sweep
///   no descriptor, since guard words of other runners name all that are in limbo, or fewer blocks than two logs may
///   want, since they keep the others.
/// - `Halted`: the gate halted the worker. Exactly then its count of halts rose.
///
/// At every answer but `Ok` and `Halted` nothing happened: nobody has served the ticket, and the section that was
/// published for it, if any, left without an effect and is retired. After every answer but `Halted` the worker is idle
/// and may attempt again. After `Halted` it can only be joined; a section that it left published is for this ticket,
/// and whoever meets it runs it to its end. Halted in its own run with none published, it was halted behind the run's
/// last step, and the kept run tells whether it answered.
///
/// The gate is asked once behind the entry, after each counted step, and once more where a section was published. No
/// memory is taken, and nothing waits (Ben-David, Blelloch, Wei, *Lock-free locks revisited*, 2022).
pub fn attempt_section<S: Structure, W: Walker, G: Gate, L>(
    table: &FlockTable<S>,
    runner: Runner<S>,
    request: &Request,
    walk: W,
    gate: &mut G,
    steps: &mut Steps<L>,
) -> (Runner<S>, Result<u64, Attempt>)
    requires own { IsOf table.now runner }
    requires wants { WantsWereRead (S.meaning table.now.structure) }
    requires op { W.way.op walk ≡ request.now.op }
    requires leads { Leads W.way (S.meaning table.now.structure) table.now.layout walk }
    requires next { MayAttempt (W.way.planning walk) request.now runner }
    ensures own { IsOf table.now result.0 }
    ensures attempts { SectionAttempts (S.meaning table.now.structure) (W.way.planning walk) request.now
        (own_thunk W.way walk request.now.number) result.1 runner result.0 (IsSeen G.halts G.asks)
        (G.halts gate.old) (G.halts gate.new) (G.asks gate.old) (G.asks gate.new) steps.old.count steps.new.count }
{
    let runner = reclaim(table, runner);
    match reserve_slots(runner) {
        Ok(runner) => {
            let runner = enter(table, runner);
            if !goes_on(gate, StepKind::Entered) {
                return (runner, Err(Attempt::Halted));
            }
            plan_and_try(table, runner, request, walk, gate, steps)
        }
        Err((runner, short)) => (runner, Err(Attempt::Short(short))),
    }
}
