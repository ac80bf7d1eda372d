//! The law of the join, on a contract.
ghost use Rattle.std.specs.Prelude.{List};
ghost use Rattle.machine_states.specs.map_history.specs.declared.op.Request.{Request};
ghost use Rattle.machine_states.specs.table_words.specs.Limits.{IsWithinLimits};
ghost use Rattle.machine_states.specs.table_words.specs.declared.layout.Layout.{Layout};
ghost use Rattle.machine_agreement.specs.Goes.{StepsAreEvents, StartsJoined};

use machine_states::structure_laws::Structure;

/// Each step of the machine is the events of agreement that belong to its kind, each enabled where it
/// comes, and then a Pass for each check that passes, where the step is supplied with what the other
/// components know: they lead a state of agreement that belongs to the machine's before the step to one
/// that belongs to the machine's after it. So what agreement keeps over every list of its events, the
/// machine keeps with it.
pub fn steps_are_events<S: Structure>(structure: &S)
    ensures { (layout : Layout) (requests : List Request) → StepsAreEvents (S.meaning structure.now) layout requests }
{}

/// In the machine's first state agreement has done nothing: its first state, over the first cells, belongs
/// to the machine's.
pub fn first_states_are_joined<S: Structure>(structure: &S)
    ensures { (layout : Layout) (requests : List Request) → IsWithinLimits layout
        → StartsJoined (S.meaning structure.now) layout requests }
{}
