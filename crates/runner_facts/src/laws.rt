//! What is known of the runners' parts, each on a contract.
ghost use Rattle.std.specs.Prelude.{List};
ghost use Rattle.machine_states.specs.map_history.specs.declared.op.Request.{Request};
ghost use Rattle.machine_states.specs.table_words.specs.Limits.{IsWithinLimits};
ghost use Rattle.machine_states.specs.table_words.specs.declared.layout.Layout.{Layout};
ghost use Rattle.machine_states.specs.World.{World};
ghost use Rattle.machine_states.specs.Reached.{Reached};
ghost use Rattle.machine_states.specs.Sight.{sight};
ghost use Rattle.machine_facts.specs.machine_invariant.specs.After.{AreAllowed};
ghost use Rattle.runner_facts.specs.Keeper.{KeeperStands};
ghost use Rattle.runner_facts.specs.Names.{NamesStand};
ghost use Rattle.runner_facts.specs.Facts.{BlocksAreEnough, BlocksAreKept, DescriptorsAreKept, FittingAreShaped, JoinedAreGone, LimboIsDone, WalksStand, WornAreWorn};

use machine_states::structure_laws::Structure;

/// In every state that the machine reaches, the readings of an entered runner are as the structure's walks may take
/// them, whatever the cells hold by now, for each operation within the limits.
pub fn walks_stand<S: Structure>(structure: &S)
    ensures { (layout : Layout) (requests : List Request) (w : World) → IsWithinLimits layout → AreAllowed requests
        → Reached (S.meaning structure.now) layout requests w
        → WalksStand (S.meaning structure.now) layout (sight (S.meaning structure.now) layout requests w) }
{
    let _ = structure;
}

/// In every state that the machine reaches, a thunk that fits the readings of an entered runner, for an operation
/// within the limits, is shaped: it has a body, and its outer lock and the places of its Takes are locks that the
/// readings give, and their words.
pub fn fitting_thunks_are_shaped<S: Structure>(structure: &S)
    ensures { (layout : Layout) (requests : List Request) (w : World) → IsWithinLimits layout → AreAllowed requests
        → Reached (S.meaning structure.now) layout requests w
        → FittingAreShaped (S.meaning structure.now) layout (sight (S.meaning structure.now) layout requests w) }
{
    let _ = structure;
}

/// In every state that the machine reaches, the section of a descriptor that waits in a limbo list is done.
pub fn limbo_is_done<S: Structure>(structure: &S)
    ensures { (layout : Layout) (requests : List Request) (w : World) → IsWithinLimits layout → AreAllowed requests
        → Reached (S.meaning structure.now) layout requests w
        → LimboIsDone (sight (S.meaning structure.now) layout requests w) }
{
    let _ = structure;
}

/// In every state that the machine reaches, each worker's descriptors are as many as the layout gives it, free, in
/// limbo or published, and the keeper's as many as there are workers.
pub fn descriptors_are_kept<S: Structure>(structure: &S)
    ensures { (layout : Layout) (requests : List Request) (w : World) → IsWithinLimits layout → AreAllowed requests
        → Reached (S.meaning structure.now) layout requests w
        → DescriptorsAreKept layout (sight (S.meaning structure.now) layout requests w) }
{
    let _ = structure;
}

/// In every state that the machine reaches, each worker's blocks are as many as the layout gives it, free, in limbo,
/// linked by its run in progress or in that one's hand, and so are the keeper's. So a worker in no run, in whose limbo no
/// more are than so many guard words keep there, has as many free ones as an attempt may want, if it has more descriptors
/// than so many.
pub fn blocks_are_kept<S: Structure>(structure: &S)
    ensures kept { (layout : Layout) (requests : List Request) (w : World) → IsWithinLimits layout
        → AreAllowed requests
        → Reached (S.meaning structure.now) layout requests w
        → BlocksAreKept layout (sight (S.meaning structure.now) layout requests w) }
    ensures enough { (layout : Layout) (requests : List Request) (w : World) → IsWithinLimits layout
        → AreAllowed requests
        → Reached (S.meaning structure.now) layout requests w
        → BlocksAreEnough layout (sight (S.meaning structure.now) layout requests w) }
{
    let _ = structure;
}

/// In every state that the machine reaches, a worker that the keeper has joined makes no further step.
pub fn joined_workers_are_gone<S: Structure>(structure: &S)
    ensures { (layout : Layout) (requests : List Request) (w : World) → IsWithinLimits layout → AreAllowed requests
        → Reached (S.meaning structure.now) layout requests w
        → JoinedAreGone layout (sight (S.meaning structure.now) layout requests w) }
{
    let _ = structure;
}

/// In every state that the machine reaches, each slot in a runner's worn list has a cell with the greatest version.
pub fn worn_slots_are_worn<S: Structure>(structure: &S)
    ensures { (layout : Layout) (requests : List Request) (w : World) → IsWithinLimits layout → AreAllowed requests
        → Reached (S.meaning structure.now) layout requests w
        → WornAreWorn (S.meaning structure.now) layout (sight (S.meaning structure.now) layout requests w) }
{
    let _ = structure;
}

/// In every state that the machine reaches: where the last word that a runner read in its walk is a lock's and names a
/// descriptor, and the runner is sure of that descriptor, the word is the held word of a lock of the section that is
/// still in it. A descriptor of which a runner is sure is in nobody's free list.
pub fn names_stand<S: Structure>(structure: &S)
    ensures { (layout : Layout) (requests : List Request) (w : World) → IsWithinLimits layout → AreAllowed requests
        → Reached (S.meaning structure.now) layout requests w
        → NamesStand (S.meaning structure.now) (sight (S.meaning structure.now) layout requests w) }
{
    let _ = structure;
}

/// In every state that the machine reaches: once the keeper has joined all workers, what its steps since then left last
/// in a word stands there. The keeper publishes no section.
pub fn what_the_keeper_left_stands<S: Structure>(structure: &S)
    ensures { (layout : Layout) (requests : List Request) (w : World) → IsWithinLimits layout → AreAllowed requests
        → Reached (S.meaning structure.now) layout requests w
        → KeeperStands layout (sight (S.meaning structure.now) layout requests w) }
{
    let _ = structure;
}
