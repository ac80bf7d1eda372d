//! What is known of the machine's states and steps, each on a contract.
ghost use Rattle.std.specs.Prelude.{List};
ghost use Rattle.machine_states.specs.map_history.specs.declared.op.Request.{Request};
ghost use Rattle.machine_states.specs.table_words.specs.declared.layout.Layout.{Layout};
ghost use Rattle.machine_states.specs.runner_parts.specs.declared.event.Event.{Event};
ghost use Rattle.machine_states.specs.World.{World};
ghost use Rattle.machine_facts.specs.After.{FactsAfter, StepFactsAfter};
ghost use Rattle.machine_facts.specs.Got.{ReachedGotLocksAreHeld};
ghost use Rattle.machine_facts.specs.Watched.{ReachedSeenLocksStand};

use machine_states::structure_laws::Structure;

/// Over every structure, after every list of events of the machine, each enabled where it is made:
/// all facts hold of each state that the events pass, and of each step; and each section that was
/// published had its effects once, for good, or none.
pub fn reached_states_show_facts<S: Structure>(structure: &S)
    ensures { (layout : Layout) (requests : List Request) (events : List Event) (w : World)
        → FactsAfter (S.meaning structure.now) layout requests events w }
{
    let _ = structure;
}

/// In each state that the machine reaches, all facts hold of each step that an enabled event makes,
/// and of the state behind it.
pub fn steps_show_facts<S: Structure>(structure: &S)
    ensures { (layout : Layout) (requests : List Request) (events : List Event) (w : World)
        → StepFactsAfter (S.meaning structure.now) layout requests events w }
{
    let _ = structure;
}

/// In each state that the machine reaches, a lock that a run's section has got by a Take, as the outcome says
/// on which it has agreed, has the word that names the section, until that is done.
pub fn got_locks_are_held<S: Structure>(structure: &S)
    ensures { (layout : Layout) (requests : List Request)
        → ReachedGotLocksAreHeld (S.meaning structure.now) layout requests }
{
    let _ = structure;
}

/// In each state that the machine reaches, a lock at which a runner has read, since it entered, a word that
/// names a section has that word still, or the section was done while it had it: in a state from which
/// events lead to this one, the lock had that word and the section was done.
pub fn seen_locks_stand<S: Structure>(structure: &S)
    ensures { (layout : Layout) (requests : List Request)
        → ReachedSeenLocksStand (S.meaning structure.now) layout requests }
{
    let _ = structure;
}
