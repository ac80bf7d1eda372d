//! The store to a cell.
ghost use Rattle.machine_states.specs.runner_parts.specs.State.{RunState};
ghost use Rattle.commit_log.specs.version_words.specs.TableState.{IsOf};
ghost use Rattle.commit_log.specs.Runs.{IsRunning};
ghost use Rattle.idem_cell.specs.Stored.{MayStore, HasStored};

use commit_log::version_words::{FlockTable, Runner};
use machine_states::body_terms::{Place, Word};
use machine_states::structure_laws::Structure;

/// Stores the value in the cell: one exchange from the agreed word to the word with this value and the next version.
/// Where another run of the section was first the cell has left the agreed word already, and the exchange changes
/// nothing.
///
/// The runner has to be in a run whose next step stores this value in this cell in place of this word. There is no
/// refusal, and no memory is taken (Ben-David, Blelloch, Wei, 2022).
pub fn store<S: Structure>(
    table: &FlockTable<S>,
    runner: Runner<S>,
    place: Place,
    old: Word,
    value: u32,
) -> Runner<S>
    requires own { IsOf table.now runner }
    requires next { (q : RunState) × MayStore (S.meaning table.now.structure) runner place old value q }
    ensures own { IsOf table.now result }
    ensures stored { (q : RunState) → IsRunning (S.meaning table.now.structure) runner q
        → HasStored (S.meaning table.now.structure) place old value runner result q }
{
    table.exchange_cell(runner, place, old, old.next(value)).0
}
