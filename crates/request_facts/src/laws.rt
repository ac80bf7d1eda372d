//! The law, on a contract.
ghost use Rattle.std.specs.Prelude.{List};
ghost use Rattle.machine_states.specs.map_history.specs.declared.op.Request.{Request};
ghost use Rattle.machine_states.specs.table_words.specs.declared.layout.Layout.{Layout};
ghost use Rattle.request_facts.specs.Laws.{ReachedCallersStand, AnsweredComeFirst};

use machine_states::structure_laws::Structure;

/// Over every structure: in every state that the machine reaches, who knows both words of a request knows its place
/// in the one history; a worker that has no section on the way, and no read's reply without its stamp, knows each of
/// its own requests that was served; and it learns of none in somebody else's section.
pub fn reached_callers_stand<S: Structure>(structure: &S)
    ensures { (layout : Layout) (requests : List Request)
        → ReachedCallersStand (S.meaning structure.now) layout requests }
{
    let _ = structure;
}

/// Over every structure: take a state that the machine reaches, and a worker that has no section on the way in it
/// and doesn't know a request of its own, which no read of its seeks. Once that request has its stamp, in whatever
/// state comes later, it is above that of each request that was answered in the first state, or equal to it where both
/// are odd, so of reads.
pub fn answered_requests_come_first<S: Structure>(structure: &S)
    ensures { (layout : Layout) (requests : List Request)
        → AnsweredComeFirst (S.meaning structure.now) layout requests }
{
    let _ = structure;
}
