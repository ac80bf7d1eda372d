//! The laws of the machine's states, each on a contract.
ghost use Rattle.std.specs.Prelude.{List};
ghost use Rattle.machine_states.specs.map_history.specs.declared.op.Request.{Request};
ghost use Rattle.machine_states.specs.table_words.specs.declared.layout.Layout.{Layout};
ghost use Rattle.machine_states.specs.runner_parts.specs.declared.event.Event.{Event};
ghost use Rattle.machine_states.specs.World.{World};
ghost use Rattle.machine_epochs.specs.Epochs.{SoundAfter};
ghost use Rattle.machine_states.specs.Reached.{Reached};
ghost use Rattle.machine_epochs.specs.Collects.{ScansCollect};
ghost use Rattle.machine_epochs.specs.Descriptors.{DescriptorsSoundAfter};
ghost use Rattle.machine_epochs.specs.Goes.{StepsAreEvents, StartsJoined};

use machine_states::structure_laws::Structure;

/// After every list of enabled events an announced epoch is at most the epoch, a runner that entered with g
/// is at g or g + 1, and where a scanner found an announcement idle or of its epoch and that is still the
/// epoch, its runner entered with it if it is entered.
pub fn epochs_are_sound<S: Structure>(structure: &S)
    ensures { (layout : Layout) (requests : List Request) (events : List Event) (w : World)
        → SoundAfter (S.meaning structure.now) layout requests events w }
{}

/// After every list of enabled events each descriptor stands once with its owner, free, in limbo or
/// published, and with no other runner; nothing was retired in an epoch to come, and no run of an entered
/// runner retires with an epoch before its entry; and the descriptor of a section that an entered runner
/// published in this entry is in nobody's free list.
pub fn descriptors_are_sound<S: Structure>(structure: &S)
    ensures { (layout : Layout) (requests : List Request) (events : List Event) (w : World)
        → DescriptorsSoundAfter (S.meaning structure.now) layout requests events w }
{}

/// In every state that the machine reaches, an event that ends a runner's scan leaves nothing in its limbo
/// that was retired two epochs before the one that the scan reached; an advance is tried only where each
/// announcement was found idle or of the scan's epoch, and a scan that was clear so far and ends without
/// one found the last announcement in the way, or its epoch is the last.
pub fn scans_collect<S: Structure>(structure: &S)
    ensures { (layout : Layout) (requests : List Request) (w v : World)
        → Reached (S.meaning structure.now) layout requests w
        → ScansCollect (S.meaning structure.now) layout requests w v }
{}

/// A step of the machine is exactly the events of epochs and slots of its kind, which may come, where it is
/// supplied with what agreement and the structure's laws give: from a state of theirs that belongs to the
/// machine's they lead to one that belongs to the machine's after the step.
pub fn steps_are_events_of_slots<S: Structure>(structure: &S)
    ensures { (layout : Layout) (requests : List Request) → StepsAreEvents (S.meaning structure.now) layout requests }
{}

/// In the machine's first state each slot is where it is at first, and that state of epochs and slots
/// belongs to the machine's.
pub fn first_slots_are_joined<S: Structure>(structure: &S)
    ensures { (layout : Layout) (requests : List Request) → StartsJoined (S.meaning structure.now) layout requests }
{}
