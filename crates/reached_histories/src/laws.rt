//! The law of this crate, on a contract.
ghost use Rattle.std.specs.Prelude.{List};
ghost use Rattle.machine_states.specs.map_history.specs.declared.op.Request.{Request};
ghost use Rattle.machine_states.specs.table_words.specs.declared.layout.Layout.{Layout};
ghost use Rattle.reached_histories.specs.Laws.{ReachedHaveHistories};
ghost use Rattle.reached_histories.specs.RealTime.{ReachedAreLinearizable};

use machine_states::structure_laws::Structure;

/// Over every structure, in every state that the machine reaches: the requests whose stamp word isn't 0, by
/// stamp and then by number, are one legal history, and the completed memory stands for its final map; the
/// clock bounds the stamps; a worker's stamped requests are known to it, or are that of the section which
/// it has published and not run to its end; what it had seen when it published that has a smaller stamp;
/// who knows both words of a request knows its place in the history; and where no lock names a section,
/// each stamped request has its reply and the cells stand for the history's final map.
///
/// The layout and the requests are within their limits. (After Fraser and Harris, Concurrent programming
/// without locks, 2007, and Ben-David, Blelloch and Wei, Lock-free locks revisited, 2022.)
pub fn reached_states_have_histories<S: Structure>(structure: &S)
    ensures { (layout : Layout) (requests : List Request)
        → ReachedHaveHistories (S.meaning structure.now) layout requests }
{
    let _ = structure;
}

/// Over every structure the history is linearizable. Take a state that the machine reaches, a request that is
/// answered in it, and one that isn't asked in it: it has no stamp, its worker has no section on the way for it, and
/// no read of the worker seeks it. Whatever events come next, the first keeps its stamp, if it has it; and once both
/// have theirs the second one's is greater, or equal where both are odd, so of reads.
///
/// The layout and the requests are within their limits. (After Herlihy and Wing, Linearizability: a correctness
/// condition for concurrent objects, 1990.)
pub fn reached_histories_are_linearizable<S: Structure>(structure: &S)
    ensures { (layout : Layout) (requests : List Request)
        → ReachedAreLinearizable (S.meaning structure.now) layout requests }
{
    let _ = structure;
}
