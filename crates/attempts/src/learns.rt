//! How a runner answers by the words of a request that it knows.
ghost use Rattle.std.specs.Prelude.{◌≡◌, ℕ};
ghost use Rattle.machine_states.specs.map_history.specs.declared.reply.Reply.{Reply};
ghost use Rattle.version_words.specs.TableState.{IsOf};
ghost use Rattle.attempts.specs.declared.answers.Attempt.TheVariants as answers;
ghost use Rattle.attempts.specs.Rests.{MayLearn, HasLearnt};

use crate::answers::Attempt;
use caller_facts::lock_walks::Planner;
use caller_facts::lock_walks::epoch_slots::exit;
use machine_states::map_history::{Reply, Request};
use version_words::{FlockTable, Runner};

/// Leaves, and loads the stamp word and the reply word of a request that the runner knows: the answer is `Done`
/// with them.
///
/// The runner has to be entered and in no run, with an empty hand, no published section and no guard, and to know both
/// words. It makes three atomic steps, which aren't counted. There is no refusal, and no memory is taken.
pub fn learn<S: Planner>(
    table: &FlockTable<S>,
    runner: Runner<S>,
    request: &Request,
) -> (Runner<S>, Attempt)
    requires own { IsOf table.now runner }
    requires next { MayLearn (S.meaning table.now.structure) request.now runner }
    ensures own { IsOf table.now result.0 }
    ensures learnt { (reply : Reply) × (stamp : ℕ) × (result.1 ≡ answers.Done reply stamp) × HasLearnt
        (S.meaning table.now.structure) request.now reply stamp runner result.0 }
{
    let runner = exit(table, runner);
    let (runner, stamp) = table.load_entry(runner, request.number, false);
    let (runner, word) = table.load_entry(runner, request.number, true);
    match Reply::from_word(word) {
        Some(reply) => (runner, Attempt::Done { reply, stamp }),
        None => unreachable!(),
    }
}
