//! What runs tell their runners, on a contract.
ghost use Rattle.std.specs.Prelude.{List};
ghost use Rattle.machine_states.specs.map_history.specs.declared.op.Request.{Request};
ghost use Rattle.machine_states.specs.table_words.specs.declared.layout.Layout.{Layout};
ghost use Rattle.machine_facts.specs.Told.{FirstIsTold, StepsTellRuns, ReachedAreTold};

use machine_states::structure_laws::Structure;

/// Each runner knows the stamp word and the reply word of its run's request once the run has passed
/// the exchange of that word: so it is in the first state, each step keeps it, and so it is in every
/// state that the machine reaches.
pub fn runs_are_told<S: Structure>(structure: &S)
    ensures first { (layout : Layout) (requests : List Request)
        → FirstIsTold (S.meaning structure.now) layout requests }
    ensures steps { (layout : Layout) (requests : List Request)
        → StepsTellRuns (S.meaning structure.now) layout requests }
    ensures reached { (layout : Layout) (requests : List Request)
        → ReachedAreTold (S.meaning structure.now) layout requests }
{
    let _ = structure;
}
