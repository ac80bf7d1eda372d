//! A lock that is held is watched before its section is helped.
ghost use Rattle.section_runs.specs.commit_log.specs.version_words.specs.TableState.{IsOf};
ghost use Rattle.try_lock.specs.Watches.{MayWatch, Watched};

use machine_states::body_terms::{Place, Word};
use machine_states::structure_laws::Structure;
use section_runs::commit_log::version_words::{FlockTable, Runner};

/// Watches the lock at this place, which had this word, that names a section: stores the own guard word to name the
/// section's descriptor, and loads the lock. The answer is true exactly where it has that word; then the runner is sure
/// of the descriptor, and the section may be helped. Otherwise the lock has another word by now: of one that the runner
/// had read there since it entered, `seen_locks_stand` of `machine_facts` says that its section was done (Michael,
/// *Hazard pointers*, 2004).
///
/// The runner is entered and in no run, and has no published section. Two atomic steps, of which no gate is asked; no
/// memory is taken.
pub fn watch<S: Structure>(
    table: &FlockTable<S>,
    runner: Runner<S>,
    place: Place,
    held: Word,
) -> (Runner<S>, bool)
    requires own { IsOf table.now runner }
    requires next { MayWatch (S.meaning table.now.structure) place held runner }
    ensures own { IsOf table.now result.0 }
    ensures watched { Watched (S.meaning table.now.structure) place held result.1 runner result.0 }
{
    let descriptor = held.value() - 1;
    let runner = table.guard(runner, Some(descriptor));
    let (runner, found) = table.load_cell(runner, place);
    (runner, found == held)
}
