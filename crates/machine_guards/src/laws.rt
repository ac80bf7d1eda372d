//! The laws of guards in the machine, each on a contract.
ghost use Rattle.std.specs.Prelude.{List};
ghost use Rattle.machine_states.specs.map_history.specs.declared.op.Request.{Request};
ghost use Rattle.machine_states.specs.table_words.specs.declared.layout.Layout.{Layout};
ghost use Rattle.machine_guards.specs.Goes.{StepsAreEvents, StartsStanding, StandsByPlaces};
ghost use Rattle.machine_guards.specs.Sweeps.{SureAreKept, SweepsAreSafe, SweepsAreExact};

use machine_states::structure_laws::Structure;

/// Each step of the machine is the event of guards of its kind, which may come, or none, where the step is
/// supplied with what the other components know: it leads to the state of guards that belongs to the
/// machine's after the step, and what guards keep holds there too.
pub fn steps_are_events_of_guards<S: Structure>(structure: &S)
    ensures { (layout : Layout) (requests : List Request) → StepsAreEvents (S.meaning structure.now) layout requests }
{}

/// In the machine's first state nobody guards anything, each descriptor and each block is free, no block is linked, and
/// what guards keep holds.
pub fn first_guards_stand<S: Structure>(structure: &S)
    ensures { (layout : Layout) (requests : List Request) → StartsStanding (S.meaning structure.now) layout requests }
{}

/// What guards keep hangs, of the other components, on where the descriptors are, and on which sections a run
/// came to its end of.
pub fn guards_stand_by_places<S: Structure>(structure: &S)
    ensures { (layout : Layout) → StandsByPlaces (S.meaning structure.now) layout }
{}

/// A descriptor of which somebody is sure stands in nobody's free list.
pub fn sure_descriptors_are_kept<S: Structure>(structure: &S)
    ensures { (layout : Layout) → SureAreKept (S.meaning structure.now) layout }
{}

/// At the end of a runner's sweep nobody is sure of a retired descriptor of its own that no guard word names which it
/// read. Exactly these come to its free list, and for each word that names something at most one stays in its limbo.
/// So it is with its blocks, each under the descriptor of the section that it was linked in, of which at most eight
/// stay for each such word.
pub fn sweeps_free_exactly_what_no_guard_names<S: Structure>(structure: &S)
    ensures safe { (layout : Layout) (requests : List Request)
        → SweepsAreSafe (S.meaning structure.now) layout requests }
    ensures exact { (layout : Layout) (requests : List Request)
        → SweepsAreExact (S.meaning structure.now) layout requests }
{
    let _ = structure;
}
