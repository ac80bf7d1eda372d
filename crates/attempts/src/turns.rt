//! How a runner leaves whose request was refused.
ghost use Rattle.std.specs.Prelude.{◌≡◌, true};
ghost use Rattle.version_words.specs.TableState.{IsOf};
ghost use Rattle.attempts.specs.Attempts.{is_refusal};
ghost use Rattle.attempts.specs.Course.{HasGone};
ghost use Rattle.attempts.specs.Rests.{MayLeave, MayLetGo, HasTurned};

use crate::answers::Attempt;
use caller_facts::lock_walks::epoch_slots::exit;
use caller_facts::try_lock::{RunEnd, help, watch};
use lock_words::runner_facts::names_stand;
use lock_words::taken_names_stand;
use machine_facts::seen_locks_stand;
use machine_states::body_terms::Steps;
use machine_states::structure_laws::Structure;
use runner_gate::Gate;
use version_words::{FlockTable, Runner};

/// Lets the guard go, and leaves.
fn leave<S: Structure>(table: &FlockTable<S>, runner: Runner<S>) -> Runner<S>
    requires own { IsOf table.now runner }
    requires next { MayLetGo runner }
    ensures own { IsOf table.now result }
    ensures gone { HasGone (S.meaning table.now.structure) runner result }
{
    let runner = table.guard(runner, None);
    exit(table, runner)
}

/// Leaves with this refusal, and answers it; where a lock was held, it is watched first, and the section that its word
/// names run to its end where the lock has the word still. Otherwise that section is done.
///
/// The runner has to be entered and in no run, with an empty hand, no published section and no guard, and may watch the
/// lock that a Busy names. `Halted` comes exactly where the gate halted it as it helped. No memory is taken, and
/// nothing waits (Ben-David, Blelloch, Wei, *Lock-free locks revisited*, 2022).
pub fn turn_away<S: Structure, G: Gate, L>(
    table: &FlockTable<S>,
    runner: Runner<S>,
    answer: Attempt,
    gate: &mut G,
    steps: &mut Steps<L>,
) -> (Runner<S>, Attempt)
    requires own { IsOf table.now runner }
    requires refusal { is_refusal answer ≡ true }
    requires next { MayLeave (S.meaning table.now.structure) answer runner }
    ensures own { IsOf table.now result.0 }
    ensures turned { HasTurned (S.meaning table.now.structure) answer result.1 runner result.0
        (G.halts gate.old) (G.halts gate.new) (G.asks gate.old) (G.asks gate.new) steps.old.count steps.new.count }
{
    names_stand(table.structure());
    seen_locks_stand(table.structure());
    taken_names_stand(table.structure());
    if let Attempt::Busy { place, word } = answer {
        let (runner, same) = watch(table, runner, place, word);
        if !same {
            return (leave(table, runner), answer);
        }
        let (runner, end) = help(table, runner, word, gate, steps);
        match end {
            RunEnd::Done(_, _) => (leave(table, runner), answer),
            RunEnd::Halted => (runner, Attempt::Halted),
        }
    } else {
        let runner = exit(table, runner);
        (runner, answer)
    }
}
