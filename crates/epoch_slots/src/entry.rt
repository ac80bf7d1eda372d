//! Entering and leaving.
ghost use Rattle.std.specs.Prelude.{None};
ghost use Rattle.machine_states.specs.epoch_core.specs.declared.stage.Stage.TheVariants as stages;
ghost use Rattle.version_words.specs.TableState.{IsOf};
ghost use Rattle.version_words.specs.Stages.{IsAt};
ghost use Rattle.epoch_slots.specs.Entries.{HasLeave, Enters, Exits};

use machine_states::structure_laws::Structure;
use version_words::{FlockTable, Runner};

/// Enters: loads the epoch, announces it, and loads it again. The runner is entered with what the second
/// load gave, and its readings begin anew. From now on no slot that it reads is used again before it
/// leaves.
///
/// The runner has to be idle. There is no refusal, no memory is taken, and there are three atomic steps (Fraser, 2004).
pub fn enter<S: Structure>(table: &FlockTable<S>, runner: Runner<S>) -> Runner<S>
    requires own { IsOf table.now runner }
    requires idle { IsAt runner stages.Idle None }
    ensures own { IsOf table.now result }
    ensures enters { Enters (S.meaning table.now.structure) runner result }
{
    let (runner, _) = table.enter_load(runner);
    let runner = table.announce(runner);
    let (runner, _) = table.enter_again(runner);
    runner
}

/// Leaves: announces that the runner is idle, in one atomic step.
///
/// The runner has to be entered, in no run, and without a published section that it hasn't run to its end, and its
/// guard word has to name nothing: so an idle runner keeps no descriptor from its owner. There is no refusal, and no
/// memory is taken.
pub fn exit<S: Structure>(table: &FlockTable<S>, runner: Runner<S>) -> Runner<S>
    requires own { IsOf table.now runner }
    requires entered { HasLeave runner }
    ensures own { IsOf table.now result }
    ensures exits { Exits (S.meaning table.now.structure) runner result }
{
    table.idle(runner)
}
