//! Which word a step of a read without a lock meets, and how.
ghost use Rattle.std.specs.Prelude.{◌≡◌, ◌≤◌, length, take, drop};
ghost use Rattle.std.specs.List.{list_all};
ghost use Rattle.runner_steps.specs.body_terms.specs.Shape.{is_look, loaded_places};
ghost use Rattle.runner_steps.specs.Reads.{are_of, is_found, is_met, finds, is_looking, is_fit, is_again, read_plan_ask, read_clock_ask, only_reads, has_come, may_reply, read_reply_ask, read_stamp_ask};

use crate::inside::LAST_CLOCK;
use crate::knowledge::{has_pair, is_looked, is_open, is_planned_stage, is_replied, is_walking};
use crate::outside::is_due_by;
use crate::section::reply_in;
use runner_steps::body_terms::{Body, Place, Step, Thunk, Word};
use runner_steps::map_history::Request;
use runner_steps::runner_parts::structure_laws::Structure;
use runner_steps::runner_parts::{Known, Look, Part, Reads, Records};
use runner_steps::table_words::{Access, Layout, Spot};

/// The first so many of these readings, or all of them.
fn first_readings(walk: &[(Place, Word)], count: usize) -> &[(Place, Word)]
    ensures { result.now ≡ take count walk.now }
{
    if count < walk.len() {
        &walk[..count]
    } else {
        walk
    }
}

/// All of these readings but the first so many.
fn later_readings(walk: &[(Place, Word)], count: usize) -> &[(Place, Word)]
    ensures { result.now ≡ drop count walk.now }
{
    if count < walk.len() {
        &walk[count..]
    } else {
        &walk[walk.len()..]
    }
}

/// The first so many of these known words, or all of them.
fn first_known(known: &[Known], count: usize) -> &[Known]
    ensures { result.now ≡ take count known.now }
{
    if count < known.len() {
        &known[..count]
    } else {
        known
    }
}

/// Whether a step of a body changes nothing.
fn is_look(step: &Step) -> bool
    ensures { result ≡ is_look step.now }
{
    matches!(
        step,
        Step::Load { .. } | Step::Want { .. } | Step::Stamp | Step::Answer { .. }
    )
}

/// How many cells the body loads.
fn load_count(body: &Body) -> usize
    ensures { result ≡ length (loaded_places body.now) }
{
    let mut count = 0;
    for step in body.steps.as_slice() {
        if let Step::Load { .. } = step {
            count += 1;
        }
    }
    count
}

/// Whether these readings are of the cells that the body loads, in their order, and no more.
fn are_loads(body: &Body, found: &[(Place, Word)]) -> bool
    ensures { result ≡ are_of (loaded_places body.now) found.now }
{
    let mut at = 0;
    for step in body.steps.as_slice() {
        if let Step::Load { place, into: _ } = step {
            if at >= found.len() || found[at].0 != *place {
                return false;
            }
            at += 1;
        }
    }
    at == found.len()
}

/// Whether, where this step loads the register, this word was found in its cell.
fn is_found(found: &[(Place, Word)], reg: u8, word: Word, step: &Step) -> bool
    ensures { result ≡ is_found found.now reg word step.now }
{
    match step {
        Step::Load { place, into } => *into != reg || has_pair(found, *place, word),
        _ => true,
    }
}

/// Whether, where one of these steps loads the register, this word was found in its cell.
fn are_found(found: &[(Place, Word)], reg: u8, word: Word, steps: &[Step]) -> bool
    ensures { result ≡ list_all (is_found found.now reg word) steps.now }
{
    steps.iter().all(|x| is_found(found, reg, word, x))
}

/// Whether what a Want asks for was found in the cells that load its register.
fn is_met(steps: &[Step], found: &[(Place, Word)], step: &Step) -> bool
    ensures { result ≡ is_met steps.now found.now step.now }
{
    match step {
        Step::Want { reg, word } => are_found(found, *reg, *word, steps),
        _ => true,
    }
}

/// Whether what the Wants among these steps ask for was found in the cells that load their registers.
fn are_met(steps: &[Step], found: &[(Place, Word)]) -> bool
    ensures { result ≡ list_all (is_met steps.now found.now) steps.now }
{
    steps.iter().all(|x| is_met(steps, found, x))
}

/// Whether these readings are of the cells that the body loads, and what its Wants ask for is among them.
fn finds(body: &Body, found: &[(Place, Word)]) -> bool
    ensures { result ≡ finds body.now found.now }
{
    are_loads(body, found) && are_met(body.steps.as_slice(), found)
}

/// Whether each of these steps changes nothing.
fn are_looks(steps: &[Step]) -> bool
    ensures { result ≡ list_all is_look steps.now }
{
    steps.iter().all(|x| is_look(x))
}

/// Whether the body changes nothing, and answers.
fn is_looking(body: &Body) -> bool
    ensures { result ≡ is_looking body.now }
{
    are_looks(body.steps.as_slice()) && reply_in(body) != 0
}

/// Whether the look is a read: its body changes nothing, its thunk could be published by what was read for its plan,
/// and behind the plan each cell that the body loads was loaded, with the words that the body wants.
fn is_fit<S: Structure>(
    structure: &S,
    layout: Layout,
    requests: &[Request],
    runner: u32,
    look: &Look,
    known: &[Known],
    walk: &[(Place, Word)],
) -> bool
    requires { 1 ≤ layout.runners }
    ensures { result ≡ is_fit (S.meaning structure.now) layout requests.now runner look.now known.now walk.now }
{
    let body = structure.body(&look.thunk);
    let before = look.walked.saturating_sub(load_count(&body));
    let planned = first_readings(walk, before);
    let found = later_readings(first_readings(walk, look.walked), before);
    is_looking(&body)
        && finds(&body, found)
        && is_open(layout, planned, &look.thunk)
        && is_due_by(
            structure,
            layout,
            requests,
            runner,
            first_known(known, look.known),
            planned,
            &look.thunk,
        )
}

/// Whether behind the load of the clock the look's lock was read once more, with its word again, and nothing else.
fn is_again(look: &Look, walk: &[(Place, Word)]) -> bool
    ensures { result ≡ is_again look.now walk.now }
{
    let rest = later_readings(walk, look.walked);
    rest.len() == 1 && has_pair(rest, look.thunk.lock, look.thunk.word)
}

pub fn read_plan_ask(part: &Part, runner: u32, thunk: &Thunk) -> Option<(Spot, Access)>
    ensures { result ≡ read_plan_ask runner thunk.now part.now }
{
    let operands: &[u64] = &thunk.operands;
    if is_walking(part.stage, &part.run)
        && part.records.only_loads
        && part.reads.look.is_none()
        && operands.len() == 8
    {
        Some((Spot::Announcement(runner), Access::Exchanges(0, 0)))
    } else {
        None
    }
}

pub fn read_clock_ask(part: &Part) -> Option<(Spot, Access)>
    ensures { result ≡ read_clock_ask part.now part.now.reads.look }
{
    match &part.reads.look {
        None => None,
        Some(look) => {
            let walking = is_walking(part.stage, &part.run);
            if walking && part.records.only_loads && is_planned_stage(look.stage) {
                Some((Spot::Clock, Access::Loads))
            } else {
                None
            }
        }
    }
}

/// Whether the runner has only loaded cells since it entered, but for a read's first steps, and has no section left to
/// retire.
fn only_reads(part: &Part) -> bool
    ensures { result ≡ only_reads part.now }
{
    is_walking(part.stage, &part.run) && part.records.only_loads && part.published.is_none()
}

/// Whether the clock was loaded for the look, and a stamp may be made from it, and the runner knows no more than then,
/// and has read the lock again.
fn has_come(part: &Part, look: &Look) -> bool
    ensures { result ≡ has_come part.now look.now }
{
    is_looked(look.stage)
        && look.clock < LAST_CLOCK
        && part.records.known.len() == look.known
        && is_again(look, &part.reads.walk)
}

/// Whether the look is a read, by what the runner has read and knows.
fn is_read<S: Structure>(
    reads: &Reads,
    records: &Records,
    structure: &S,
    layout: Layout,
    requests: &[Request],
    runner: u32,
    look: &Look,
) -> bool
    requires { 1 ≤ layout.runners }
    ensures { result ≡ is_fit (S.meaning structure.now) layout requests.now runner look.now records.now.known
        reads.now.walk }
{
    is_fit(
        structure,
        layout,
        requests,
        runner,
        look,
        &records.known,
        &reads.walk,
    )
}

/// Whether the runner may write the reply of its read.
fn may_reply<S: Structure>(
    part: &Part,
    structure: &S,
    layout: Layout,
    requests: &[Request],
    runner: u32,
    look: &Look,
) -> bool
    requires { 1 ≤ layout.runners }
    ensures { result ≡ may_reply (S.meaning structure.now) layout requests.now runner part.now look.now }
{
    if !only_reads(part) {
        return false;
    }
    if !has_come(part, look) {
        return false;
    }
    is_read(
        &part.reads,
        &part.records,
        structure,
        layout,
        requests,
        runner,
        look,
    )
}

pub fn read_reply_ask<S: Structure>(
    part: &Part,
    structure: &S,
    layout: Layout,
    requests: &[Request],
    runner: u32,
) -> Option<(Spot, Access)>
    requires { 1 ≤ layout.runners }
    ensures { result
        ≡ read_reply_ask (S.meaning structure.now) layout requests.now runner part.now part.now.reads.look }
{
    match &part.reads.look {
        None => None,
        Some(look) => {
            if may_reply(part, structure, layout, requests, runner, look) {
                let body = structure.body(&look.thunk);
                Some((
                    Spot::Reply(look.thunk.request),
                    Access::Exchanges(0, reply_in(&body)),
                ))
            } else {
                None
            }
        }
    }
}

pub fn read_stamp_ask(part: &Part) -> Option<(Spot, Access)>
    ensures { result ≡ read_stamp_ask part.now part.now.reads.look }
{
    match &part.reads.look {
        None => None,
        Some(look) => {
            let walking = is_walking(part.stage, &part.run);
            if walking && is_replied(look.stage) && look.clock < LAST_CLOCK {
                Some((
                    Spot::Stamp(look.thunk.request),
                    Access::Exchanges(0, 2 * look.clock + 1),
                ))
            } else {
                None
            }
        }
    }
}
