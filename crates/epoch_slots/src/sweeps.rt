//! The sweep of the guard words, and the descriptors and blocks that come out of limbo.
ghost use Rattle.version_words.specs.TableState.{IsOf};
ghost use Rattle.epoch_slots.specs.Sweeps.{MaySweep, HasLooked, HasSwept};

use machine_states::structure_laws::Structure;
use version_words::{FlockTable, Runner};

/// Loads the workers' guard words one after the other.
fn look<S: Structure>(table: &FlockTable<S>, runner: Runner<S>) -> Runner<S>
    requires own { IsOf table.now runner }
    requires ready { MaySweep runner }
    ensures own { IsOf table.now result }
    ensures looked { HasLooked (S.meaning table.now.structure) table.now.layout.runners runner result }
{
    let mut runner = runner;
    for guard in 0..table.layout().runners {
        let (looked, _) = table.load_guard(runner, guard);
        runner = looked;
    }
    runner
}

/// One sweep: every guard word is loaded once. The own retired descriptors that none of them names are free then, and
/// those that one names stay in limbo: somebody may still run their sections. So it is with the own blocks, each under
/// the descriptor of the section that it was linked in. A guard word names one descriptor, so each other runner keeps one
/// of this runner's from it at most, and eight blocks, whatever became of it.
///
/// The runner has to be idle, with no sweep in progress. There is no refusal, and no memory is taken. It makes one step
/// for each runner (Michael, *Hazard pointers*, 2004).
pub fn sweep<S: Structure>(table: &FlockTable<S>, runner: Runner<S>) -> Runner<S>
    requires own { IsOf table.now runner }
    requires ready { MaySweep runner }
    ensures own { IsOf table.now result }
    ensures swept { HasSwept (S.meaning table.now.structure) runner result }
{
    let runner = look(table, runner);
    let (runner, _) = table.load_guard(runner, table.layout().runners);
    runner
}
