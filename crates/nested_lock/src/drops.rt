//! The release of a lock.
ghost use Rattle.machine_states.specs.runner_parts.specs.State.{RunState};
ghost use Rattle.commit_log.specs.version_words.specs.TableState.{IsOf};
ghost use Rattle.commit_log.specs.Runs.{IsRunning};
ghost use Rattle.nested_lock.specs.Dropped.{MayDrop, HasDropped};

use commit_log::version_words::{FlockTable, Runner};
use machine_states::body_terms::{Place, Word};
use machine_states::structure_laws::Structure;

/// Releases a lock that the run's section holds with this word: one exchange to the free word with the next version.
/// Where another run of the section was first the lock has left the held word already, and the exchange changes
/// nothing.
///
/// The runner has to be in a run whose next step releases this lock. There is no refusal, and no memory is taken
/// (Ben-David, Blelloch, Wei, 2022).
pub fn drop_lock<S: Structure>(
    table: &FlockTable<S>,
    runner: Runner<S>,
    place: Place,
    held: Word,
) -> Runner<S>
    requires own { IsOf table.now runner }
    requires next { (q : RunState) × MayDrop (S.meaning table.now.structure) runner place held q }
    ensures own { IsOf table.now result }
    ensures dropped { (q : RunState) → IsRunning (S.meaning table.now.structure) runner q
        → HasDropped (S.meaning table.now.structure) place held runner result q }
{
    table.release(runner, place, Word::pack(0, held.version() - 1))
}
