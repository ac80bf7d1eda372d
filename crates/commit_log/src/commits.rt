//! The commit of a word that was loaded.
ghost use Rattle.machine_states.specs.runner_parts.specs.State.{RunState};
ghost use Rattle.version_words.specs.TableState.{IsOf};
ghost use Rattle.commit_log.specs.Runs.{IsRunning};
ghost use Rattle.commit_log.specs.Committed.{MayCommit, HasCommitted};

use machine_states::structure_laws::Structure;
use version_words::{FlockTable, Runner};

/// Agrees on a word of the run's log: one exchange puts the proposal there, where no run of the section has put another
/// one yet. Answers the word that stands there then, by which every run of the section goes, and whether this exchange
/// put it there.
///
/// The runner has to be in a run whose next step commits a word that it loaded, into a part of the log that is linked
/// (`link_if_due`): that of a Load, or the first one of a Take. The proposal is that word. There is no refusal, and no
/// memory is taken (Ben-David, Blelloch, Wei, 2022).
pub fn commit<S: Structure>(
    table: &FlockTable<S>,
    runner: Runner<S>,
    proposal: u64,
) -> (Runner<S>, u64, bool)
    requires own { IsOf table.now runner }
    requires next { (q : RunState) × MayCommit (S.meaning table.now.structure) runner proposal q }
    ensures own { IsOf table.now result.0 }
    ensures commits { (q : RunState) → IsRunning (S.meaning table.now.structure) runner q
        → HasCommitted (S.meaning table.now.structure) result.1 result.2 runner result.0 q }
{
    table.commit_word(runner, proposal)
}
