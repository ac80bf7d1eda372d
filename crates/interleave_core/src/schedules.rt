//! The machine after a list of events.
ghost use Rattle.std.specs.Prelude.{◌≡◌, ◌≤◌, ℕ, Some, None, Err, IfOk, length, take, slice_get};
ghost use Rattle.machine_states.specs.map_history.specs.Requests.{AreInOrder};
ghost use Rattle.machine_states.specs.table_words.specs.Limits.{IsWithinLimits};
ghost use Rattle.interleave_core.specs.declared.schedules.ScheduleError.TheVariants.{NotEnabled};
ghost use Rattle.machine_states.specs.Schedules.{IsAfter};
ghost use Rattle.machine_epochs.specs.Descriptors.{DescriptorsSoundAfter};
ghost use Rattle.machine_epochs.specs.Epochs.{SoundAfter};
ghost use Rattle.reached_histories.specs.machine_facts.specs.machine_invariant.specs.After.{WholeAfter};
ghost use Rattle.reached_histories.specs.machine_facts.specs.machine_invariant.specs.LogWords.{LogWordsSayAfter};
ghost use Rattle.reached_histories.specs.machine_facts.specs.machine_invariant.specs.Rising.{RisesAfter};
ghost use Rattle.reached_histories.specs.machine_facts.specs.After.{FactsAfter, StepFactsAfter};
ghost use Rattle.reached_histories.specs.Laws.{HistoryAfter};
ghost use Rattle.reached_histories.specs.RealTime.{LinearizableAfter};
ghost use Rattle.interleave_core.specs.Enabled.{StopsNaming};
ghost use Rattle.interleave_core.specs.NextSteps.{NextStepsAfter};

use crate::machine::{Machine, StepError};
use machine_states::map_history::Request;
use machine_states::runner_parts::Event;
use machine_states::structure_laws::Structure;
use machine_states::table_words::Layout;
use std::alloc::{AllocError, Global};

/// Why there is no machine after these events.
#[derive(Clone, Copy, Debug, PartialEq, Eq)]
pub enum ScheduleError {
    /// The event with this number is the first that isn't enabled. Bit `j` of `enabled` is set where its
    /// runner may make a step of the kind with number `j` there.
    NotEnabled { at: usize, enabled: u64 },
    /// There is no memory.
    Memory,
}

/// The machine after these events, from its first state on. Over every structure, whatever the events: its
/// epochs, slots, descriptors and sections are sound, each event was exactly the events of its kind in
/// agreement and in epochs and slots, log words and done words of runs are what they may be, and the next
/// event leaves each cell as it is or raises its version by one. Each section that was published had its
/// effects once, for good, or none; outcomes that were kept agree; publishers hold what the locks of their
/// Takes named; and the next event leaves the words that stand. The stamped requests are one legal history,
/// the clock bounds their stamps, what a worker has seen comes before what it asks next, and where no lock
/// names a section each stamped request has its reply and the cells stand for the history's final map. The
/// history is linearizable: what was answered after any number of the events has a smaller stamp than what
/// wasn't asked by then, or the same where both are reads without a lock.
/// Whoever is in a run and wasn't joined has an enabled event, the next one of its opening, line or end,
/// but where a Make finds no free slot or a link no free block. `NotEnabled` comes exactly where an event
/// isn't enabled, and names the first.
pub fn all_schedules<S: Structure>(
    alloc: Global,
    structure: S,
    layout: Layout,
    requests: &[Request],
    events: &[Event],
) -> Result<Machine<S>, ScheduleError>
    requires limits { IsWithinLimits layout }
    requires ordered { AreInOrder requests.now 64 }
    ensures ok { IfOk result (λ x. IsAfter (S.meaning structure) layout requests.now events.now x.world) }
    ensures epochs { IfOk result (λ x. SoundAfter (S.meaning structure) layout requests.now events.now x.world) }
    ensures descriptors { IfOk result
        (λ x. DescriptorsSoundAfter (S.meaning structure) layout requests.now events.now x.world) }
    ensures whole { IfOk result (λ x. WholeAfter (S.meaning structure) layout requests.now events.now x.world) }
    ensures logs { IfOk result (λ x. LogWordsSayAfter (S.meaning structure) layout requests.now events.now x.world) }
    ensures rises { IfOk result (λ x. RisesAfter (S.meaning structure) layout requests.now events.now x.world) }
    ensures facts { IfOk result (λ x. FactsAfter (S.meaning structure) layout requests.now events.now x.world) }
    ensures steps { IfOk result (λ x. StepFactsAfter (S.meaning structure) layout requests.now events.now x.world) }
    ensures history { IfOk result (λ x. HistoryAfter (S.meaning structure) layout requests.now events.now x.world) }
    ensures order { IfOk result (λ x. LinearizableAfter (S.meaning structure) layout requests.now events.now x.world) }
    ensures next { IfOk result (λ x. NextStepsAfter (S.meaning structure) layout requests.now events.now x.world) }
    ensures structure { IfOk result (λ x. x.structure ≡ structure) }
    ensures layout { IfOk result (λ x. x.layout ≡ layout) }
    ensures requests { IfOk result (λ x. x.requests ≡ requests.now) }
    ensures not_enabled { (at enabled : ℕ) → result ≡ Err (NotEnabled at enabled)
        → StopsNaming (S.meaning structure) layout requests.now events.now at enabled }
{
    let Ok(mut machine) = Machine::new(alloc, structure, layout, requests) else {
        return Err(ScheduleError::Memory);
    };
    for at in 0..events.len() {
        match machine.step(events[at]) {
            Ok(()) => {}
            Err(StepError::NotEnabled { enabled }) => return Err(ScheduleError::NotEnabled {
                at,
                enabled,
            }),
            Err(StepError::Memory) => return Err(ScheduleError::Memory),
        }
    }
    Ok(machine)
}
