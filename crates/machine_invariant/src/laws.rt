//! What is known of the machine's states, each on a contract.
ghost use Rattle.std.specs.Prelude.{List};
ghost use Rattle.machine_states.specs.map_history.specs.declared.op.Request.{Request};
ghost use Rattle.machine_states.specs.table_words.specs.Limits.{IsWithinLimits};
ghost use Rattle.machine_states.specs.table_words.specs.declared.layout.Layout.{Layout};
ghost use Rattle.machine_states.specs.runner_parts.specs.declared.event.Event.{Event};
ghost use Rattle.machine_states.specs.World.{World};
ghost use Rattle.machine_invariant.specs.After.{WholeAfter};
ghost use Rattle.machine_invariant.specs.Along.{BeginExact, StayExact};
ghost use Rattle.machine_invariant.specs.Rising.{RisesAfter};
ghost use Rattle.machine_invariant.specs.States.{WholeStatesAreSound};
ghost use Rattle.machine_invariant.specs.Lengths.{ShortAfter, StandingListsAreShort, WholeListsAreShort};
ghost use Rattle.machine_invariant.specs.LogWords.{LogWordsSayAfter, WholeLogWordsSay};

use machine_states::structure_laws::Structure;

/// Where the components go along with the machine's events, their histories say what happened: what the
/// exchanges of cells, stamps and replies changed, and which commits of Makes and Retires won. At first
/// nothing did.
pub fn histories_say_what_happened<S: Structure>(structure: &S)
    ensures begin { (layout : Layout) (requests : List Request) → IsWithinLimits layout
        → BeginExact (S.meaning structure.now) layout requests }
    ensures stay { (layout : Layout) (requests : List Request) → StayExact (S.meaning structure.now) layout requests }
{
    let _ = structure;
}

/// A state of the machine that meets the whole invariant, beside states of the components whose histories
/// say what happened, is sound: each slot is fixed, live, or stands in one list of one runner, and what may
/// be held is; until a Retire is agreed its slot is live and each holder entered no later than its epoch;
/// trails agree; locks name live sections; and each effect comes once.
pub fn whole_states_are_sound<S: Structure>(structure: &S)
    ensures { (layout : Layout) → WholeStatesAreSound (S.meaning structure.now) layout }
{
    let _ = structure;
}

/// Over every structure, after every list of events of the machine, each enabled where it is made: each
/// event was exactly the events of its kind in agreement and in epochs and slots, and in the state to which
/// they lead each slot is fixed, live, or stands in one list of one runner; what is held isn't given out
/// again; all runs of a section agree; locks name live sections; and each effect of a section came once.
pub fn reached_states_are_sound<S: Structure>(structure: &S)
    ensures { (layout : Layout) (requests : List Request) (events : List Event) (w : World)
        → WholeAfter (S.meaning structure.now) layout requests events w }
{
    let _ = structure;
}

/// A runner's hand, free list, worn list and limbo of node slots have together no more entries than there
/// are node slots: where each node slot stands in the list that its location names and these lists have
/// node slots alone, and so in each state that meets the whole invariant, and in each one that the machine
/// reaches.
pub fn lists_are_short<S: Structure>(structure: &S)
    ensures standing { (layout : Layout) → StandingListsAreShort (S.meaning structure.now) layout }
    ensures whole { (layout : Layout) → WholeListsAreShort (S.meaning structure.now) layout }
    ensures reached { (layout : Layout) (requests : List Request) (events : List Event) (w : World)
        → ShortAfter (S.meaning structure.now) layout requests events w }
{
    let _ = structure;
}

/// Where a runner runs a section, the section's done word is 0 or 1. Once the run has loaded its thunk and
/// the done word, the log word of each Make of its line is 0 or the number plus one of a node slot, and
/// that of each Retire is 0 or the number plus one of the slot that it retires, where the run knows the part
/// of the log in which the word stands; the link behind the last such part is 0 or the number plus one of a
/// block of the table. The run has agreed on as many words as its line commits below where
/// it stands, so its next commit goes to the log word behind those, and a line commits at most 64. So it is in each state that meets the whole invariant, and in each one that the machine reaches.
pub fn log_words_follow_runs<S: Structure>(structure: &S)
    ensures whole { (layout : Layout) → WholeLogWordsSay (S.meaning structure.now) layout }
    ensures reached { (layout : Layout) (requests : List Request) (events : List Event) (w : World)
        → LogWordsSayAfter (S.meaning structure.now) layout requests events w }
{
    let _ = structure;
}

/// In every state that the machine reaches, an event leaves each cell as it is or raises its version by exactly one.
pub fn steps_raise_versions<S: Structure>(structure: &S)
    ensures { (layout : Layout) (requests : List Request) (events : List Event) (w : World)
        → RisesAfter (S.meaning structure.now) layout requests events w }
{
    let _ = structure;
}
