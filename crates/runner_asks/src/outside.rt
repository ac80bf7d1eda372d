//! Which word an event outside a run meets, and how.
ghost use Rattle.std.specs.Prelude.{◌≡◌, ◌≤◌, ◌<◌, ◌-◌, ◌^◌, ◌&&◌, ◌==◌, not, is_none};
ghost use Rattle.runner_steps.specs.table_words.specs.Limits.{IsWithinLimits};
ghost use Rattle.runner_steps.specs.table_words.specs.Places.{slot_count, descriptor_count};
ghost use Rattle.runner_steps.specs.body_terms.specs.Word.{held_word, version_of};
ghost use Rattle.runner_steps.specs.body_terms.specs.Memory.{cell_of};
ghost use Rattle.runner_steps.specs.runner_parts.specs.Tests.{has, is_resting, is_walking, is_between, is_open, serves};
ghost use Rattle.runner_steps.specs.table_words.specs.declared.access.Access.TheVariants.{Loads, Stores};
ghost use Rattle.runner_steps.specs.Outside.{when, enter_load_ask, announce_ask, enter_again_ask, idle_ask, scan_one_ask, advance_ask, split_ask, join_ask, read_ask, entry_ask, descriptor_spot, block_spot, blocks_from, private_load_ask, private_store_ask, is_due, is_publishable, is_ready, hold_ask, open_ask};

use crate::guards::{is_sure_of, names};
use crate::knowledge::{
    is_between, is_next, is_open, is_outside, is_readable, is_resting, is_walking,
};
use crate::stores::is_prepared;
use runner_steps::body_terms::{Place, Thunk, Word};
use runner_steps::map_history::Request;
use runner_steps::runner_parts::epoch_core::{LAST_EPOCH, Stage};
use runner_steps::runner_parts::structure_laws::Structure;
use runner_steps::runner_parts::{Known, Part, Reads, Records, has};
use runner_steps::table_words::{Access, Layout, Spot};
use runner_steps::{
    block_spot, blocks_from, cell_place, descriptor_count, descriptor_spot, held_word, slot_count,
};

pub fn enter_load_ask(stage: Stage) -> Option<(Spot, Access)>
    ensures { result ≡ enter_load_ask stage }
{
    match stage {
        Stage::Idle => Some((Spot::Epoch, Access::Loads)),
        _ => None,
    }
}

pub fn announce_ask(runner: u32, stage: Stage) -> Option<(Spot, Access)>
    ensures { result ≡ announce_ask runner stage }
{
    match stage {
        Stage::Loaded(epoch) => Some((Spot::Announcement(runner), Access::Stores(epoch))),
        _ => None,
    }
}

pub fn enter_again_ask(part: &Part) -> Option<(Spot, Access)>
    ensures { result ≡ enter_again_ask part.now }
{
    match (is_between(&part.reads.look), part.stage) {
        (false, Stage::Announced) => Some((Spot::Epoch, Access::Loads)),
        _ => None,
    }
}

pub fn scan_one_ask(layout: Layout, runner: u32, stage: Stage) -> Option<(Spot, Access)>
    ensures { result ≡ scan_one_ask layout runner stage }
{
    match stage {
        Stage::Scanning {
            epoch: _,
            next,
            clear: _,
        } if runner == next && next <= layout.runners => {
            Some((Spot::Announcement(runner), Access::Loads))
        }
        _ => None,
    }
}

pub fn advance_ask(layout: Layout, stage: Stage) -> Option<(Spot, Access)>
    ensures { result ≡ advance_ask layout stage }
{
    match stage {
        Stage::Scanning { epoch, next, clear }
            if layout.runners < next && clear && epoch < LAST_EPOCH => {
            Some((Spot::Epoch, Access::Exchanges(epoch, epoch + 1)))
        }
        _ => None,
    }
}

pub fn idle_ask(part: &Part, runner: u32) -> Option<(Spot, Access)>
    ensures { result ≡ idle_ask runner part.now }
{
    let settled = part.published.is_none() && part.guards.named.is_none();
    let over = settled && !is_between(&part.reads.look);
    if is_walking(part.stage, &part.run) && over {
        Some((Spot::Announcement(runner), Access::Stores(0)))
    } else {
        None
    }
}

pub fn split_ask(part: &Part, layout: Layout, runner: u32) -> Option<(Spot, Access)>
    ensures { result ≡ split_ask layout runner part.now }
{
    if runner == layout.runners && is_outside(&part.run) && part.records.splits < layout.runners {
        Some((Spot::Seat, Access::Loads))
    } else {
        None
    }
}

pub fn join_ask(part: &Part, layout: Layout, runner: u32, worker: u32) -> Option<(Spot, Access)>
    ensures { result ≡ join_ask layout runner worker part.now }
{
    let fresh = worker < layout.runners && !has(&part.records.joined, worker);
    if runner == layout.runners && is_outside(&part.run) && fresh {
        Some((Spot::Seat, Access::Loads))
    } else {
        None
    }
}

pub fn read_ask<S: Structure>(part: &Part, structure: &S, place: Place) -> Option<(Spot, Access)>
    ensures { result ≡ read_ask (S.meaning structure.now) place part.now }
{
    if is_walking(part.stage, &part.run) && is_readable(structure, &part.reads.walk, place) {
        Some((Spot::Cell(place), Access::Loads))
    } else {
        None
    }
}

pub fn entry_ask(part: &Part, request: u32, reply: bool) -> Option<(Spot, Access)>
    ensures { result ≡ entry_ask request reply part.now }
{
    if !is_resting(part.stage, &part.run) {
        None
    } else if reply {
        Some((Spot::Reply(request), Access::Loads))
    } else {
        Some((Spot::Stamp(request), Access::Loads))
    }
}

pub fn private_load_ask<S: Structure>(
    part: &Part,
    structure: &S,
    layout: Layout,
    slot: u32,
    word: u32,
) -> Option<(Spot, Access)>
    requires { IsWithinLimits layout }
    ensures { result ≡ private_load_ask (S.meaning structure.now) layout slot word part.now }
{
    let slots = slot_count(structure, layout);
    let resting = is_resting(part.stage, &part.run);
    if slot < slots {
        let own = has(&part.nodes.free, slot) || has(&part.nodes.hand, slot);
        if resting && word < 5 && own {
            let place = cell_place(structure, layout, slot, word);
            return Some((Spot::Cell(place), Access::Loads));
        }
    } else if slot < blocks_from(structure, layout) {
        if resting && has(&part.descriptors.free, slot - slots) {
            return Some((descriptor_spot(slot - slots, word), Access::Loads));
        }
    } else {
        return block_load_ask(part, slot - blocks_from(structure, layout), word);
    }
    None
}

/// A load of a word of an own free block.
fn block_load_ask(part: &Part, block: u32, word: u32) -> Option<(Spot, Access)>
    ensures { result ≡ when (is_resting part.now.stage part.now.run && has part.now.blocks.free block)
        (block_spot block word) Loads }
{
    if is_resting(part.stage, &part.run) && has(&part.blocks.free, block) {
        Some((block_spot(block, word), Access::Loads))
    } else {
        None
    }
}

/// A store of 0 into a word of an own free block.
fn block_store_ask(part: &Part, block: u32, word: u32, number: u64) -> Option<(Spot, Access)>
    ensures { result ≡ when (is_resting part.now.stage part.now.run
        && (has part.now.blocks.free block && number == 0)) (block_spot block word) (Stores number) }
{
    if is_resting(part.stage, &part.run) && has(&part.blocks.free, block) && number == 0 {
        Some((block_spot(block, word), Access::Stores(number)))
    } else {
        None
    }
}

pub fn private_store_ask<S: Structure>(
    part: &Part,
    structure: &S,
    layout: Layout,
    slot: u32,
    word: u32,
    number: u64,
) -> Option<(Spot, Access)>
    requires { IsWithinLimits layout }
    ensures { result ≡ private_store_ask (S.meaning structure.now) layout slot word number part.now }
{
    let slots = slot_count(structure, layout);
    let blocks = blocks_from(structure, layout);
    if blocks <= slot {
        return block_store_ask(part, slot - blocks, word, number);
    }
    if slots <= slot
        && is_resting(part.stage, &part.run)
        && has(&part.descriptors.free, slot - slots)
    {
        Some((descriptor_spot(slot - slots, word), Access::Stores(number)))
    } else {
        None
    }
}

pub fn open_ask(part: &Part, descriptor: u32) -> Option<(Spot, Access)>
    ensures { result ≡ open_ask descriptor part.now }
{
    if is_walking(part.stage, &part.run) && is_sure_of(&part.guards, descriptor) {
        Some((Spot::ThunkWord(descriptor, 0), Access::Loads))
    } else {
        None
    }
}

/// Whether the runner is entered, in no run, has no published section, and no reply of a read without its stamp.
fn may_begin(part: &Part) -> bool
    ensures { result ≡ (is_walking part.now.stage part.now.run && (is_none part.now.published
        && not (is_between part.now.reads.look))) }
{
    let over = part.published.is_none() && !is_between(&part.reads.look);
    is_walking(part.stage, &part.run) && over
}

/// Whether the thunk may be published: it serves the worker's next request, its lock's word was read free, no
/// section of the runner's is published, and no reply of a read is without its stamp.
pub fn is_publishable<S: Structure>(
    part: &Part,
    structure: &S,
    layout: Layout,
    requests: &[Request],
    runner: u32,
    thunk: &Thunk,
) -> bool
    requires { 1 ≤ layout.runners }
    ensures { result ≡ is_publishable (S.meaning structure.now) layout requests.now runner thunk.now part.now }
{
    if !may_begin(part) {
        return false;
    }
    if !is_read_open(layout, &part.reads, thunk) {
        return false;
    }
    is_due(
        structure,
        layout,
        requests,
        runner,
        &part.records,
        &part.reads,
        thunk,
    )
}

/// Whether the own free descriptor's words were stored with this thunk.
pub fn is_ready(part: &Part, layout: Layout, descriptor: u32, thunk: &Thunk) -> bool
    requires { IsWithinLimits layout }
    ensures { result ≡ is_ready layout part.now descriptor thunk.now }
{
    let operands: &[u64] = &thunk.operands;
    descriptor < descriptor_count(layout)
        && has(&part.descriptors.free, descriptor)
        && names(&part.guards, descriptor)
        && operands.len() == 8
        && is_prepared(&part.descriptors.stored, descriptor, thunk)
}

pub fn hold_ask<S: Structure>(
    part: &Part,
    structure: &S,
    layout: Layout,
    requests: &[Request],
    runner: u32,
    thunk: &Thunk,
    descriptor: u32,
) -> Option<(Spot, Access)>
    requires { IsWithinLimits layout }
    ensures { result ≡ hold_ask (S.meaning structure.now) layout requests.now runner thunk.now descriptor part.now }
{
    if is_ready(part, layout, descriptor, thunk)
        && is_publishable(part, structure, layout, requests, runner, thunk)
    {
        let held = held_word(descriptor, thunk.word);
        Some((
            Spot::Cell(thunk.lock),
            Access::Exchanges(thunk.word.bits(), held.bits()),
        ))
    } else {
        None
    }
}

/// Whether the thunk serves this request by these readings.
fn serves<S: Structure>(
    structure: &S,
    layout: Layout,
    walk: &[(Place, Word)],
    thunk: &Thunk,
    request: Option<Request>,
) -> bool
    ensures { result ≡ serves (S.meaning structure.now) layout walk.now thunk.now request }
{
    match request {
        None => false,
        Some(next) => structure.fits(layout, next.op, walk, thunk),
    }
}

/// Whether the thunk's lock was read free, with a version left to take and release it.
fn is_read_open(layout: Layout, reads: &Reads, thunk: &Thunk) -> bool
    ensures { result ≡ is_open layout reads.now.cells thunk.now }
{
    is_open(layout, &reads.cells, thunk)
}

/// Whether the thunk serves the worker's next request.
fn is_due<S: Structure>(
    structure: &S,
    layout: Layout,
    requests: &[Request],
    runner: u32,
    records: &Records,
    reads: &Reads,
    thunk: &Thunk,
) -> bool
    requires { 1 ≤ layout.runners }
    ensures { result ≡ is_due (S.meaning structure.now) layout requests.now runner records.now.known reads.now.walk
        thunk.now }
{
    is_due_by(
        structure,
        layout,
        requests,
        runner,
        &records.known,
        &reads.walk,
        thunk,
    )
}

/// Whether the thunk serves the worker's next request, by these known words and these readings.
pub fn is_due_by<S: Structure>(
    structure: &S,
    layout: Layout,
    requests: &[Request],
    runner: u32,
    known: &[Known],
    walk: &[(Place, Word)],
    thunk: &Thunk,
) -> bool
    requires { 1 ≤ layout.runners }
    ensures { result ≡ is_due (S.meaning structure.now) layout requests.now runner known.now walk.now thunk.now }
{
    let request = requests.get(thunk.request as usize).copied();
    is_next(layout, runner, requests, known, request)
        && serves(structure, layout, walk, thunk, request)
}
