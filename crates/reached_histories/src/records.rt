//! What the machine's states supply to the history's events, each on a contract.
ghost use Rattle.std.specs.Prelude.{List};
ghost use Rattle.machine_states.specs.map_history.specs.declared.op.Request.{Request};
ghost use Rattle.machine_states.specs.table_words.specs.declared.layout.Layout.{Layout};
ghost use Rattle.reached_histories.specs.Supplies.{FirstIsKept, HoldsAreDue, OperationsAreAsked, FreesAreOver, AnsweredAreLearned, EndsAreOver};
ghost use Rattle.reached_histories.specs.Keeping.{StepsAreKept, EndsAreOwn, PublicationsAreKept};
ghost use Rattle.reached_histories.specs.Publishing.{PublicationsMayCome};

use machine_states::structure_laws::Structure;

/// In the first state no runner knows a request or has published a section, as in the history's
/// first state.
pub fn first_is_kept<S: Structure>(structure: &S)
    ensures { (layout : Layout) (requests : List Request)
        → FirstIsKept (S.meaning structure.now) layout requests }
{
    let _ = structure;
}

/// Where a runner may try to publish a section, it has none that it hasn't run to its end, the
/// request is its own, and it knows both words of the earlier requests of the trace and not of this
/// one. The requests are numbered by their place.
pub fn holds_are_due<S: Structure>(structure: &S)
    ensures { (layout : Layout) (requests : List Request)
        → HoldsAreDue (S.meaning structure.now) layout requests }
{
    let _ = structure;
}

/// In a state that meets the whole invariant, the operation of each section that was published is
/// that of its request.
pub fn operations_are_asked<S: Structure>(structure: &S)
    ensures { (layout : Layout) (requests : List Request)
        → OperationsAreAsked (S.meaning structure.now) layout requests }
{
    let _ = structure;
}

/// In a state that meets the whole invariant, a descriptor of the table that is in a limbo list is
/// used, and no worker has published a section there that it hasn't run to its end.
pub fn frees_are_over<S: Structure>(structure: &S)
    ensures { (layout : Layout) (requests : List Request)
        → FreesAreOver (S.meaning structure.now) layout requests }
{
    let _ = structure;
}

/// In a state that meets the whole invariant and is tied to the history's, a runner that has both
/// words of a request in its records may come to know it: the words are there.
pub fn answered_are_learned<S: Structure>(structure: &S)
    ensures { (layout : Layout) → AnsweredAreLearned (S.meaning structure.now) layout }
{
    let _ = structure;
}

/// In such a state, a worker whose own run of the section that it has published has set the done
/// word may have come to the section's end: the section is done, and the worker knows both words of
/// its request where this was stamped.
pub fn ends_are_over<S: Structure>(structure: &S)
    ensures { (layout : Layout) → EndsAreOver (S.meaning structure.now) layout }
{
    let _ = structure;
}

/// A step that publishes nothing is these events of the history: its runner's own run has come to
/// its section's end, where the runner has no such section then and had one before, and the runner
/// comes to know each request of which it then has both words. They lead to what runners keep
/// behind the step. Where the end comes, the runner was in its own run of that section, which had
/// set the done word.
pub fn steps_are_kept<S: Structure>(structure: &S)
    ensures steps { (layout : Layout) (requests : List Request)
        → StepsAreKept (S.meaning structure.now) layout requests }
    ensures ends { (layout : Layout) (requests : List Request)
        → EndsAreOwn (S.meaning structure.now) layout requests }
{
    let _ = structure;
}

/// A step that publishes a section is the publication in the history, which leads to what runners
/// keep behind the step.
pub fn publications_are_kept<S: Structure>(structure: &S)
    ensures { (layout : Layout) (requests : List Request)
        → PublicationsAreKept (S.meaning structure.now) layout requests }
{
    let _ = structure;
}

/// Where a runner may try to publish a section, and agreement's publication may come behind the
/// reading of the lock, the publication may come as a step of the joint states with the history, as
/// that of its request, with the reply of its line.
pub fn publications_may_come<S: Structure>(structure: &S)
    ensures { (layout : Layout) (requests : List Request)
        → PublicationsMayCome (S.meaning structure.now) layout requests }
{
    let _ = structure;
}
