//! What is known of the next steps in the machine's reached states, each on a contract.
ghost use Rattle.std.specs.Prelude.{List};
ghost use Rattle.machine_states.specs.map_history.specs.declared.op.Request.{Request};
ghost use Rattle.machine_states.specs.table_words.specs.Limits.{IsWithinLimits};
ghost use Rattle.machine_states.specs.table_words.specs.declared.layout.Layout.{Layout};
ghost use Rattle.machine_states.specs.World.{World};
ghost use Rattle.machine_states.specs.Reached.{Reached};
ghost use Rattle.machine_states.specs.Sight.{sight};
ghost use Rattle.machine_invariant.specs.After.{AreAllowed};
ghost use Rattle.next_steps.specs.Rooms.{ClockIsSmall, RoomsStand, ThunksFit};
ghost use Rattle.next_steps.specs.Numbers.{NumbersFit};
ghost use Rattle.next_steps.specs.Looks.{LooksAreSmall, LooksHaveStamps};
ghost use Rattle.next_steps.specs.Enabled.{NextIsEnabled, RunsGoOn};
ghost use Rattle.next_steps.specs.Links.{OneLinkIsEnough};
ghost use Rattle.next_steps.specs.Stages.{RunsAreInTable, MayOpen, ThenOpened, MayStep, MayLink, ThenLinked, CommitsBehind, ThenStepped};

use machine_states::structure_laws::Structure;

/// Over every structure, in every state that the machine reaches: a runner that is in a run and wasn't
/// joined has an enabled event. Until the run has loaded the thunk and the done word it is the next of
/// these loads; from then on it is the step that comes next in the line of the run's body, or at its end.
/// Before a commit into a part of the log that isn't linked it is the next step by which a block is linked. The
/// exceptions are a Make's first private load and the first step of a link, where the runner has no free slot or no
/// free block. So the machine can make that event.
pub fn next_steps_are_enabled<S: Structure>(structure: &S)
    ensures enabled { (layout : Layout) (requests : List Request) (w : World) → IsWithinLimits layout
        → AreAllowed requests
        → Reached (S.meaning structure.now) layout requests w
        → NextIsEnabled (S.meaning structure.now) layout requests (sight (S.meaning structure.now) layout requests w) }
    ensures goes_on { (layout : Layout) (requests : List Request) (w : World) → IsWithinLimits layout
        → AreAllowed requests
        → Reached (S.meaning structure.now) layout requests w → RunsGoOn (S.meaning structure.now) layout requests w }
{
    let _ = structure;
}

/// In every state that the machine reaches, neither the clock nor half of any stamp is more than the number
/// of requests that have a stamp.
pub fn clocks_are_small<S: Structure>(structure: &S)
    ensures { (layout : Layout) (requests : List Request) (w : World) → IsWithinLimits layout → AreAllowed requests
        → Reached (S.meaning structure.now) layout requests w
        → ClockIsSmall requests (sight (S.meaning structure.now) layout requests w) }
{
    let _ = structure;
}

/// In every state that the machine reaches, the clock that a runner has loaded for a read without a lock is no more
/// than the clock, and a stamp can be made from it.
pub fn looks_are_small<S: Structure>(structure: &S)
    ensures small { (layout : Layout) (requests : List Request) (w : World) → IsWithinLimits layout
        → AreAllowed requests → Reached (S.meaning structure.now) layout requests w
        → LooksAreSmall (sight (S.meaning structure.now) layout requests w) }
    ensures stamps { (layout : Layout) (requests : List Request) (w : World) → IsWithinLimits layout
        → AreAllowed requests → Reached (S.meaning structure.now) layout requests w
        → LooksHaveStamps (sight (S.meaning structure.now) layout requests w) }
{
    let _ = structure;
}

/// In every state that the machine reaches, the thunk of each published section whose descriptor isn't free
/// again names one of the requests, and its outer lock and each cell that its body's line meets are the
/// table's.
pub fn published_thunks_fit<S: Structure>(structure: &S)
    ensures { (layout : Layout) (requests : List Request) (w : World) → IsWithinLimits layout → AreAllowed requests
        → Reached (S.meaning structure.now) layout requests w
        → ThunksFit (S.meaning structure.now) layout requests (sight (S.meaning structure.now) layout requests w) }
{
    let _ = structure;
}

/// In every state that the machine reaches, each cell of a slot that is free or on the board has a version below the
/// greatest; so has each cell of the slot that a Make fills to which it hasn't stored, and each one that a runner has
/// looked at in a slot of its hand in which it has found no cell with the greatest version.
pub fn slots_have_room<S: Structure>(structure: &S)
    ensures { (layout : Layout) (requests : List Request) (w : World) → IsWithinLimits layout → AreAllowed requests
        → Reached (S.meaning structure.now) layout requests w
        → RoomsStand (S.meaning structure.now) layout (sight (S.meaning structure.now) layout requests w) }
{
    let _ = structure;
}

/// In every state that the machine reaches, the numbers that the runners keep are the table's: own
/// descriptors, places that were read since they entered, and, of an entered runner, the descriptors that
/// it holds and the slots that its readings reach.
pub fn numbers_are_the_tables<S: Structure>(structure: &S)
    ensures { (layout : Layout) (requests : List Request) (w : World) → IsWithinLimits layout → AreAllowed requests
        → Reached (S.meaning structure.now) layout requests w
        → NumbersFit (S.meaning structure.now) layout (sight (S.meaning structure.now) layout requests w) }
{
    let _ = structure;
}

/// What a caller may do with a runner that is in a run, by its part in a state that the machine reaches.
/// The run's descriptor, its thunk and its body's line are within the table, and the body has the shape. In
/// the opening it may make the next load, which adds the word that it finds. From then on it may make the
/// step that stands next, but where a Make is to take a slot and has none, or a block is to be linked first;
/// then it may make the next step by which one is linked, where it has one, behind which none of its blocks is lost, and
/// one is enough. A commit goes to the log word behind the words that were agreed on; and behind the step the part is the
/// one that the step leaves.
pub fn runs_may_be_followed<S: Structure>(structure: &S)
    ensures known { (layout : Layout) (requests : List Request) → IsWithinLimits layout → AreAllowed requests
        → RunsAreInTable (S.meaning structure.now) layout requests }
    ensures opening { (layout : Layout) (requests : List Request) → IsWithinLimits layout → AreAllowed requests
        → MayOpen (S.meaning structure.now) layout requests }
    ensures opened { (layout : Layout) (requests : List Request)
        → ThenOpened (S.meaning structure.now) layout requests }
    ensures step { (layout : Layout) (requests : List Request) → IsWithinLimits layout → AreAllowed requests
        → MayStep (S.meaning structure.now) layout requests }
    ensures link { (layout : Layout) (requests : List Request) → IsWithinLimits layout → AreAllowed requests
        → MayLink (S.meaning structure.now) layout requests }
    ensures enough { (layout : Layout) (requests : List Request) → IsWithinLimits layout → AreAllowed requests
        → OneLinkIsEnough (S.meaning structure.now) layout requests }
    ensures linked { (layout : Layout) (requests : List Request) → IsWithinLimits layout → AreAllowed requests
        → ThenLinked (S.meaning structure.now) layout requests }
    ensures commits { (layout : Layout) (requests : List Request) → IsWithinLimits layout → AreAllowed requests
        → CommitsBehind (S.meaning structure.now) layout requests }
    ensures behind { (layout : Layout) (requests : List Request) → IsWithinLimits layout → AreAllowed requests
        → ThenStepped (S.meaning structure.now) layout requests }
{
    let _ = structure;
}
