//! One run of a body in one go.
ghost use Rattle.std.specs.Prelude.{◌≡◌, ◌^◌, ◌<◌, ◌&&◌, Some, true, false, length, slice_index_or};
ghost use Rattle.body_terms.specs.Shape.{IsShaped, is_take};
ghost use Rattle.body_terms.specs.Plain.{plain_run, memory_after, PlacesFit, SlotsFit, LocksFit, HasRequest, HasRoom, VersionsFit};

use crate::act::act;
use crate::memory::Memory;
use body_terms::{Body, Outcome, Step, Trail};

/// Runs a body alone and in one go, for the request with this number. `taken` says of each `Take`, in
/// order, whether its lock is got; at one that isn't the run leaves with `Busy`.
///
/// The run is that of descriptor 0, with the slots in the order in which they are free and the stamp of
/// the memory's clock. Lock cells are left as they are. The trail isn't late.
pub fn plain(body: &Body, request: u32, memory: &mut Memory, taken: &[bool]) -> (Outcome, Trail)
    requires shape { IsShaped body.now }
    requires locks { LocksFit body.now memory.old taken.now }
    requires slots { SlotsFit body.now memory.old }
    requires places { PlacesFit body.now memory.old }
    requires request { HasRequest request memory.old }
    requires early { memory.old.clock < 2 ^ 62 }
    requires versions { VersionsFit memory.old }
    requires room { HasRoom body.now memory.old }

    ensures outcome { (plain_run body.now request memory.old taken.now).outcome ≡ Some result.0 }
    ensures trail { result.1
        ≡ record { words = (plain_run body.now request memory.old taken.now).trail; late = false } }
    ensures memory { memory.new ≡ memory_after request memory.old (plain_run body.now request memory.old taken.now) }
{
    let version_max = memory.version_max;
    run_steps(body.steps.as_slice(), request, memory, version_max, taken)
}

/// Whether the lock of this step is got, which follows `takes` other `Take`s.
fn is_got(step: &Step, taken: &[bool], takes: usize) -> bool
    requires { is_take step.now ≡ true → takes < length taken.now }
    ensures { result ≡ (is_take step.now && slice_index_or taken.now takes false) }
{
    step.is_take() && taken[takes]
}

/// Runs these steps as `plain` does; the memory's greatest version is handed in beside it.
fn run_steps(
    steps: &[Step],
    request: u32,
    memory: &mut Memory,
    version_max: u32,
    taken: &[bool],
) -> (Outcome, Trail)
    requires shape { IsShaped steps.now }
    requires locks { LocksFit steps.now memory.old taken.now }
    requires slots { SlotsFit steps.now memory.old }
    requires places { PlacesFit steps.now memory.old }
    requires request { HasRequest request memory.old }
    requires early { memory.old.clock < 2 ^ 62 }
    requires versions { VersionsFit memory.old }
    requires room { HasRoom steps.now memory.old }
    requires greatest { version_max ≡ memory.old.version_max }

    ensures outcome { (plain_run steps.now request memory.old taken.now).outcome ≡ Some result.0 }
    ensures trail { result.1
        ≡ record { words = (plain_run steps.now request memory.old taken.now).trail; late = false } }
    ensures memory { memory.new ≡ memory_after request memory.old (plain_run steps.now request memory.old taken.now) }
{
    let mut trail = Trail::new();
    let mut takes = 0;
    for n in 0..steps.len() {
        let step = &steps[n];
        let got = is_got(step, taken, takes);
        match act(steps, n, step, request, got, memory, &mut trail) {
            Some(outcome) => return (outcome, trail),
            None => takes += step.is_take() as usize,
        }
    }
    unreachable!()
}
