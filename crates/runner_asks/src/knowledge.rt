//! What a runner can tell from what it keeps.
ghost use Rattle.std.specs.Prelude.{◌≡◌, ◌<◌, ◌≤◌};
ghost use Rattle.runner_steps.specs.runner_parts.specs.Tests.{has_pair, is_walking, is_resting, is_outside, knows, is_answered, are_answered, is_next, is_readable, is_open, is_planned_stage, is_looked, is_replied, is_between};
ghost use Rattle.runner_steps.specs.table_words.specs.Limits.{IsWithinLimits};

use runner_steps::body_terms::{Place, Thunk, Word};
use runner_steps::map_history::Request;
use runner_steps::runner_parts::epoch_core::Stage;
use runner_steps::runner_parts::structure_laws::Structure;
use runner_steps::runner_parts::{Known, Look, LookStage, Run};
use runner_steps::table_words::Layout;

/// Whether this word was read at this place.
pub fn has_pair(pairs: &[(Place, Word)], place: Place, word: Word) -> bool
    ensures { result ≡ has_pair pairs.now place word }
{
    pairs
        .iter()
        .any(|pair| pair.0 == place && pair.1.bits() == word.bits())
}

/// Entered, and in no run.
pub fn is_walking(stage: Stage, run: &Option<Run>) -> bool
    ensures { result ≡ is_walking stage run.now }
{
    match (stage, run) {
        (Stage::Entered(_), None) => true,
        _ => false,
    }
}

/// Idle, or entered and in no run.
pub fn is_resting(stage: Stage, run: &Option<Run>) -> bool
    ensures { result ≡ is_resting stage run.now }
{
    match (stage, run) {
        (Stage::Idle | Stage::Entered(_), None) => true,
        _ => false,
    }
}

/// In no run.
pub fn is_outside(run: &Option<Run>) -> bool
    ensures { result ≡ is_outside run.now }
{
    run.is_none()
}

/// Whether the stamp word, or the reply word, of this request is known.
fn knows(known: &[Known], request: u32, reply: bool) -> bool
    ensures { result ≡ knows known.now request reply }
{
    known.iter().any(|x| x.request == request && if reply { x.reply } else { !x.reply })
}

/// Whether both words of this request are known.
pub fn is_answered(known: &[Known], request: u32) -> bool
    ensures { result ≡ is_answered known.now request }
{
    knows(known, request, false) && knows(known, request, true)
}

/// Whether each request of this trace below this number has been answered.
fn are_answered(known: &[Known], trace: u32, below: u32, requests: &[Request]) -> bool
    ensures { result ≡ are_answered known.now trace below requests.now }
{
    requests.iter().all(|x| !(x.trace == trace && x.number < below) || is_answered(known, x.number))
}

/// Whether this request is the worker's next one: it isn't answered, and each earlier one of its trace is.
pub fn is_next(
    layout: Layout,
    worker: u32,
    requests: &[Request],
    known: &[Known],
    request: Option<Request>,
) -> bool
    requires { 1 ≤ layout.runners }
    ensures { result ≡ is_next layout worker requests.now known.now request }
{
    match request {
        None => false,
        Some(next) => {
            next.trace % layout.runners == worker
                && !is_answered(known, next.number)
                && are_answered(known, next.trace, next.number, requests)
        }
    }
}

/// Whether the thunk's lock was read free, with a version left to take and release it.
pub fn is_open(layout: Layout, cells: &[(Place, Word)], thunk: &Thunk) -> bool
    ensures { result ≡ is_open layout cells.now thunk.now }
{
    let free = thunk.word.value() == 0;
    let left = thunk.word.version() as u64 + 2 <= layout.version_max as u64;
    free && left && has_pair(cells, thunk.lock, thunk.word)
}

/// Whether a runner with these readings may read this place outside a run.
pub fn is_readable<S: Structure>(structure: &S, walk: &[(Place, Word)], place: Place) -> bool
    ensures { result ≡ is_readable (S.meaning structure.now) walk.now place }
{
    let fixed_cells = structure.fixed_cells();
    if place < fixed_cells || structure.is_lock(place) {
        return true;
    }
    let slot = (place - fixed_cells) / 5;
    slot < structure.fixed_slots() || structure.reaches(walk, slot)
}

/// Whether the read's thunk was announced, and the clock isn't loaded for it yet.
pub fn is_planned_stage(stage: LookStage) -> bool
    ensures { result ≡ is_planned_stage stage }
{
    matches!(stage, LookStage::Planned)
}

/// Whether the clock was loaded for the read, and its reply isn't written yet.
pub fn is_looked(stage: LookStage) -> bool
    ensures { result ≡ is_looked stage }
{
    matches!(stage, LookStage::Looked)
}

/// Whether the read's reply was written, and its stamp is to come.
pub fn is_replied(stage: LookStage) -> bool
    ensures { result ≡ is_replied stage }
{
    matches!(stage, LookStage::Replied)
}

/// Whether the runner has written the reply of a read, and its stamp is to come.
pub fn is_between(look: &Option<Look>) -> bool
    ensures { result ≡ is_between look.now }
{
    match look {
        None => false,
        Some(look) => is_replied(look.stage),
    }
}
