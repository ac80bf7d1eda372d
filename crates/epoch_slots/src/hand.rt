//! The node slots that came out of limbo, looked at and given back.
ghost use Rattle.std.specs.Prelude.{◌≡◌, ◌<◌, [], true, length, None};
ghost use Rattle.machine_states.specs.table_words.specs.Places.{slot_count};
ghost use Rattle.machine_states.specs.epoch_core.specs.declared.stage.Stage.TheVariants as stages;
ghost use Rattle.machine_states.specs.runner_parts.specs.Tests.{has};
ghost use Rattle.version_words.specs.TableState.{IsOf};
ghost use Rattle.version_words.specs.Stages.{IsAt};
ghost use Rattle.epoch_slots.specs.Hands.{IsLookedAt, HandIsOwn, IsBack};

use machine_states::structure_laws::Structure;
use version_words::{FlockTable, Runner};

/// Loads the slot's five cells, by which it goes to the free list or, where one is at the greatest version,
/// to the worn list.
fn look_at<S: Structure>(table: &FlockTable<S>, runner: Runner<S>, slot: u32) -> Runner<S>
    requires own { IsOf table.now runner }
    requires at { IsAt runner stages.Idle None }
    requires in_hand { has runner.part.nodes.hand slot ≡ true }
    requires tests { runner.part.nodes.tests ≡ [] }
    requires within { slot < slot_count runner.layout (S.meaning table.now.structure).fixed_slots }
    ensures own { IsOf table.now result }
    ensures looked { IsLookedAt (S.meaning table.now.structure) slot 5 runner result }
{
    let mut runner = runner;
    for cell in 0..5 {
        let (looked, _) = table.private_load(runner, slot, cell);
        runner = looked;
    }
    runner
}

/// Gives back every slot in the hand, in order.
pub fn look_back<S: Structure>(table: &FlockTable<S>, runner: Runner<S>) -> Runner<S>
    requires own { IsOf table.now runner }
    requires at { IsAt runner stages.Idle None }
    requires tests { runner.part.nodes.tests ≡ [] }
    requires hand { HandIsOwn (S.meaning table.now.structure) runner }
    ensures own { IsOf table.now result }
    ensures back { IsBack (S.meaning table.now.structure) (length runner.part.nodes.hand) runner result }
{
    let count = runner.hand().len();
    let mut runner = runner;
    for _back in 0..count {
        let slot = runner.hand()[0];
        runner = look_at(table, runner, slot);
    }
    runner
}
