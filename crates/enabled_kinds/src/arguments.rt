//! The kinds whose events carry arguments.
ghost use Rattle.std.specs.Prelude.{◌≡◌, ◌<◌, ◌≤◌, ◌+◌, ◌^◌, ◌&&◌, nat_lt, ℕ, Bool, Some, None, true, false, length};
ghost use Rattle.std.specs.List.{list_any};
ghost use Rattle.machine_states.specs.map_history.specs.Requests.{most_requests};
ghost use Rattle.machine_states.specs.table_words.specs.Limits.{IsWithinLimits};
ghost use Rattle.machine_states.specs.table_words.specs.Places.{slot_count, descriptor_count, block_count};
ghost use Rattle.runner_steps.specs.Outside.{blocks_from};
ghost use Rattle.runner_steps.specs.Asks.{sizes_for};
ghost use Rattle.machine_states.specs.runner_parts.specs.declared.event.EventKind.TheVariants as kinds;
ghost use Rattle.machine_states.specs.epoch_core.specs.declared.stage.Stage.TheVariants.{Scanning};
ghost use Rattle.machine_states.specs.runner_parts.specs.Tests.{last_stored};
ghost use Rattle.enabled_kinds.specs.May.{is_enabled, is_enabled_if};
ghost use Rattle.enabled_kinds.specs.Tried.{begun, linked, stored_thunk, or_zero, no_thunk};

use machine_states::body_terms::{Thunk, Word};
use machine_states::epoch_core::Stage;
use machine_states::map_history::Request;
use machine_states::runner_parts::{EventKind, Part, Stored};
use machine_states::structure_laws::Structure;
use machine_states::table_words::Layout;
use runner_asks::{asks, last_stored, thunk_of};
use runner_steps::{block_count, blocks_from, sizes_for, slot_count};

/// Whether the runner may make this event next.
pub fn may<S: Structure>(
    part: &Part,
    structure: &S,
    layout: Layout,
    requests: &[Request],
    runner: u32,
    kind: EventKind,
) -> bool
    requires limits { IsWithinLimits layout }
    requires few { length requests.now ≤ most_requests }
    ensures { result ≡ is_enabled (S.meaning structure.now) layout requests.now runner part.now kind }
{
    asks(part, structure, layout, requests, runner, &kind).is_some()
}

/// Whether it may load the next announcement of its scan.
pub fn may_scan<S: Structure>(
    part: &Part,
    structure: &S,
    layout: Layout,
    requests: &[Request],
    runner: u32,
) -> bool
    requires limits { IsWithinLimits layout }
    requires few { length requests.now ≤ most_requests }
    ensures scanning { (e : ℕ) (next : ℕ) (clear : Bool) → part.now.stage ≡ Scanning e next clear
        → result ≡ is_enabled (S.meaning structure.now) layout requests.now runner part.now (kinds.ScanOne next) }
    ensures no_scan { ((e : ℕ) (next : ℕ) (clear : Bool) → part.now.stage ≡ Scanning e next clear → ⊥)
        → result ≡ false }
{
    match part.stage {
        Stage::Scanning {
            epoch: _,
            next,
            clear: _,
        } => may(
            part,
            structure,
            layout,
            requests,
            runner,
            EventKind::ScanOne(next),
        ),
        _ => false,
    }
}

/// Whether it may load a cell outside a run.
pub fn may_walk<S: Structure>(
    part: &Part,
    structure: &S,
    layout: Layout,
    requests: &[Request],
    runner: u32,
) -> bool
    requires limits { IsWithinLimits layout }
    requires few { length requests.now ≤ most_requests }
    ensures found { result ≡ true
        → (place : ℕ)
        × (is_enabled (S.meaning structure.now) layout requests.now runner part.now (kinds.LoadCell (Some place))
        ≡ true) }
    ensures missed { result ≡ false → (place : ℕ)
        → place < (sizes_for (S.meaning structure.now) layout requests.now).cells
        → is_enabled (S.meaning structure.now) layout requests.now runner part.now (kinds.LoadCell (Some place))
        ≡ false }
{
    for place in 0..sizes_for(structure, layout, requests).cells {
        let kind = EventKind::LoadCell(Some(place));
        if may(part, structure, layout, requests, runner, kind) {
            return true;
        }
    }
    false
}

/// Whether it may load the first cell of one of these slots.
fn may_look<S: Structure>(
    part: &Part,
    structure: &S,
    layout: Layout,
    requests: &[Request],
    runner: u32,
    slots: &[u32],
) -> bool
    requires limits { IsWithinLimits layout }
    requires few { length requests.now ≤ most_requests }
    ensures { result ≡ list_any (λ slot.
        is_enabled (S.meaning structure.now) layout requests.now runner part.now (kinds.PrivateLoad slot 0)) slots.now }
{
    for slot in slots {
        let kind = EventKind::PrivateLoad {
            slot: *slot,
            word: 0,
        };
        if may(part, structure, layout, requests, runner, kind) {
            return true;
        }
    }
    false
}

/// Whether it may load the first cell of an own node slot that is free.
pub fn may_look_free<S: Structure>(
    part: &Part,
    structure: &S,
    layout: Layout,
    requests: &[Request],
    runner: u32,
) -> bool
    requires limits { IsWithinLimits layout }
    requires few { length requests.now ≤ most_requests }
    ensures { result ≡ list_any (λ slot.
        is_enabled (S.meaning structure.now) layout requests.now runner part.now (kinds.PrivateLoad slot 0))
        part.now.nodes.free }
{
    may_look(part, structure, layout, requests, runner, &part.nodes.free)
}

/// Whether it may load the first cell of an own node slot that is in the hand.
pub fn may_look_hand<S: Structure>(
    part: &Part,
    structure: &S,
    layout: Layout,
    requests: &[Request],
    runner: u32,
) -> bool
    requires limits { IsWithinLimits layout }
    requires few { length requests.now ≤ most_requests }
    ensures { result ≡ list_any (λ slot.
        is_enabled (S.meaning structure.now) layout requests.now runner part.now (kinds.PrivateLoad slot 0))
        part.now.nodes.hand }
{
    may_look(part, structure, layout, requests, runner, &part.nodes.hand)
}

/// Whether it may load the first word of an own free descriptor.
#[tactic(auto, using(crate::proofs::Bounds::few_numbers))]
pub fn may_reread<S: Structure>(
    part: &Part,
    structure: &S,
    layout: Layout,
    requests: &[Request],
    runner: u32,
) -> bool
    requires limits { IsWithinLimits layout }
    requires few { length requests.now ≤ most_requests }
    ensures { result ≡ list_any (λ d. nat_lt d (descriptor_count layout)
        && is_enabled (S.meaning structure.now) layout requests.now runner part.now
        (kinds.PrivateLoad (slot_count layout (S.meaning structure.now).fixed_slots + d) 0)) part.now.descriptors.free }
{
    let slots = slot_count(structure, layout);
    let descriptors = sizes_for(structure, layout, requests).descriptors;
    for descriptor in &part.descriptors.free {
        if *descriptor < descriptors {
            let slot = slots + *descriptor;
            let kind = EventKind::PrivateLoad { slot, word: 0 };
            if may(part, structure, layout, requests, runner, kind) {
                return true;
            }
        }
    }
    false
}

/// Whether it may store into the first word of an own free descriptor.
#[tactic(auto, using(crate::proofs::Bounds::few_numbers))]
pub fn may_prepare<S: Structure>(
    part: &Part,
    structure: &S,
    layout: Layout,
    requests: &[Request],
    runner: u32,
) -> bool
    requires limits { IsWithinLimits layout }
    requires few { length requests.now ≤ most_requests }
    ensures { result ≡ list_any (λ d. nat_lt d (descriptor_count layout)
        && is_enabled (S.meaning structure.now) layout requests.now runner part.now
        (kinds.PrivateStore (slot_count layout (S.meaning structure.now).fixed_slots + d) 0 0))
        part.now.descriptors.free }
{
    let slots = slot_count(structure, layout);
    let descriptors = sizes_for(structure, layout, requests).descriptors;
    for descriptor in &part.descriptors.free {
        if *descriptor < descriptors {
            let slot = slots + *descriptor;
            let kind = EventKind::PrivateStore {
                slot,
                word: 0,
                number: 0,
            };
            if may(part, structure, layout, requests, runner, kind) {
                return true;
            }
        }
    }
    false
}

/// Whether it may load the first word of an own free block.
#[tactic(auto, using(crate::proofs::Bounds::few_blocks))]
pub fn may_reread_block<S: Structure>(
    part: &Part,
    structure: &S,
    layout: Layout,
    requests: &[Request],
    runner: u32,
) -> bool
    requires limits { IsWithinLimits layout }
    requires few { length requests.now ≤ most_requests }
    ensures { result ≡ list_any (λ b. nat_lt b (block_count layout)
        && is_enabled (S.meaning structure.now) layout requests.now runner part.now
        (kinds.PrivateLoad (blocks_from (S.meaning structure.now) layout + b) 0)) part.now.blocks.free }
{
    let from = blocks_from(structure, layout);
    let blocks = block_count(layout);
    for block in &part.blocks.free {
        if *block < blocks {
            let slot = from + *block;
            let kind = EventKind::PrivateLoad { slot, word: 0 };
            if may(part, structure, layout, requests, runner, kind) {
                return true;
            }
        }
    }
    false
}

/// Whether it may store into the first word of an own free block.
#[tactic(auto, using(crate::proofs::Bounds::few_blocks))]
pub fn may_empty<S: Structure>(
    part: &Part,
    structure: &S,
    layout: Layout,
    requests: &[Request],
    runner: u32,
) -> bool
    requires limits { IsWithinLimits layout }
    requires few { length requests.now ≤ most_requests }
    ensures { result ≡ list_any (λ b. nat_lt b (block_count layout)
        && is_enabled (S.meaning structure.now) layout requests.now runner part.now
        (kinds.PrivateStore (blocks_from (S.meaning structure.now) layout + b) 0 0)) part.now.blocks.free }
{
    let from = blocks_from(structure, layout);
    let blocks = block_count(layout);
    for block in &part.blocks.free {
        if *block < blocks {
            let slot = from + *block;
            let kind = EventKind::PrivateStore {
                slot,
                word: 0,
                number: 0,
            };
            if may(part, structure, layout, requests, runner, kind) {
                return true;
            }
        }
    }
    false
}

/// Whether it may begin a run, with the descriptor that its guard word names.
pub fn may_begin<S: Structure>(
    part: &Part,
    structure: &S,
    layout: Layout,
    requests: &[Request],
    runner: u32,
) -> bool
    requires limits { IsWithinLimits layout }
    requires few { length requests.now ≤ most_requests }
    ensures { result ≡ is_enabled_if (S.meaning structure.now) layout requests.now runner part.now
        (begun part.now.guards.named) }
{
    match part.guards.named {
        None => false,
        Some(descriptor) => {
            let kind = EventKind::LoadThunk(Some(descriptor));
            may(part, structure, layout, requests, runner, kind)
        }
    }
}

/// Whether it may link the block that its run has in the hand.
pub fn may_link<S: Structure>(
    part: &Part,
    structure: &S,
    layout: Layout,
    requests: &[Request],
    runner: u32,
) -> bool
    requires limits { IsWithinLimits layout }
    requires few { length requests.now ≤ most_requests }
    ensures { result ≡ is_enabled_if (S.meaning structure.now) layout requests.now runner part.now
        (linked part.now.run) }
{
    let Some(run) = &part.run else {
        return false;
    };
    match run.block {
        None => false,
        Some(block) => {
            let kind = EventKind::LinkCommit(block);
            may(part, structure, layout, requests, runner, kind)
        }
    }
}

/// Whether it may take a slot from the board, by a load of its own.
pub fn may_take<S: Structure>(
    part: &Part,
    structure: &S,
    layout: Layout,
    requests: &[Request],
    runner: u32,
) -> bool
    requires limits { IsWithinLimits layout }
    requires few { length requests.now ≤ most_requests }
    ensures { result ≡ list_any (λ load.
        is_enabled (S.meaning structure.now) layout requests.now runner part.now
        (kinds.BoardTake load.word load.read)) part.now.board }
{
    for load in &part.board {
        let kind = EventKind::BoardTake(load.word, load.read);
        if may(part, structure, layout, requests, runner, kind) {
            return true;
        }
    }
    false
}

/// Whether it may give one of its free node slots to the board's first word.
pub fn may_give<S: Structure>(
    part: &Part,
    structure: &S,
    layout: Layout,
    requests: &[Request],
    runner: u32,
) -> bool
    requires limits { IsWithinLimits layout }
    requires few { length requests.now ≤ most_requests }
    ensures { result ≡ list_any (λ slot.
        is_enabled (S.meaning structure.now) layout requests.now runner part.now (kinds.BoardGive 0 slot))
        part.now.nodes.free }
{
    for slot in &part.nodes.free {
        let kind = EventKind::BoardGive(0, *slot);
        if may(part, structure, layout, requests, runner, kind) {
            return true;
        }
    }
    false
}

/// The thunk that was stored last into the words of this descriptor.
fn stored_thunk(stored: &[Stored], descriptor: u32) -> Thunk
    ensures { result ≡ stored_thunk stored.now descriptor }
{
    thunk_of(&[
        stored_word(stored, descriptor, 0),
        stored_word(stored, descriptor, 1),
        stored_word(stored, descriptor, 2),
        stored_word(stored, descriptor, 3),
        stored_word(stored, descriptor, 4),
        stored_word(stored, descriptor, 5),
        stored_word(stored, descriptor, 6),
        stored_word(stored, descriptor, 7),
        stored_word(stored, descriptor, 8),
        stored_word(stored, descriptor, 9),
        stored_word(stored, descriptor, 10),
        stored_word(stored, descriptor, 11),
    ])
}

/// The number that was stored last into this word of the descriptor, or 0.
fn stored_word(stored: &[Stored], descriptor: u32, word: u32) -> u64
    ensures { result ≡ or_zero (last_stored stored.now descriptor word None) }
{
    match last_stored(stored, descriptor, word) {
        None => 0,
        Some(number) => number,
    }
}

/// Whether it may publish one of its free descriptors with the thunk that was stored into it.
pub fn may_publish<S: Structure>(
    part: &Part,
    structure: &S,
    layout: Layout,
    requests: &[Request],
    runner: u32,
) -> bool
    requires limits { IsWithinLimits layout }
    requires few { length requests.now ≤ most_requests }
    ensures { result ≡ list_any (λ d.
        is_enabled (S.meaning structure.now) layout requests.now runner part.now
        (kinds.Hold (stored_thunk part.now.descriptors.stored d) d)) part.now.descriptors.free }
{
    for descriptor in &part.descriptors.free {
        let kind = EventKind::Hold {
            thunk: stored_thunk(&part.descriptors.stored, *descriptor),
            descriptor: *descriptor,
        };
        if may(part, structure, layout, requests, runner, kind) {
            return true;
        }
    }
    false
}

/// A thunk of zeros: whether a read may be announced doesn't go by its thunk.
fn no_thunk() -> Thunk
    ensures { result ≡ no_thunk }
{
    Thunk {
        form: 0,
        request: 0,
        lock: 0,
        word: Word::from_bits(0),
        operands: [0, 0, 0, 0, 0, 0, 0, 0],
    }
}

/// Whether it may announce a read without a lock.
pub fn may_announce_read<S: Structure>(
    part: &Part,
    structure: &S,
    layout: Layout,
    requests: &[Request],
    runner: u32,
) -> bool
    requires limits { IsWithinLimits layout }
    requires few { length requests.now ≤ most_requests }
    ensures { result
        ≡ is_enabled (S.meaning structure.now) layout requests.now runner part.now (kinds.ReadPlan no_thunk) }
{
    let kind = EventKind::ReadPlan(no_thunk());
    may(part, structure, layout, requests, runner, kind)
}

/// Whether a sweep may read a guard word.
pub fn may_look_guard<S: Structure>(
    part: &Part,
    structure: &S,
    layout: Layout,
    requests: &[Request],
    runner: u32,
) -> bool
    requires limits { IsWithinLimits layout }
    requires few { length requests.now ≤ most_requests }
    ensures found { result ≡ true
        → (n : ℕ)
        × (is_enabled (S.meaning structure.now) layout requests.now runner part.now (kinds.LoadGuard n) ≡ true) }
    ensures missed { result ≡ false → (n : ℕ) → n ≤ layout.runners
        → is_enabled (S.meaning structure.now) layout requests.now runner part.now (kinds.LoadGuard n) ≡ false }
{
    for number in 0..layout.runners + 1 {
        let kind = EventKind::LoadGuard(number);
        if may(part, structure, layout, requests, runner, kind) {
            return true;
        }
    }
    false
}

/// Whether the keeper may join a worker.
pub fn may_join<S: Structure>(
    part: &Part,
    structure: &S,
    layout: Layout,
    requests: &[Request],
    runner: u32,
) -> bool
    requires limits { IsWithinLimits layout }
    requires few { length requests.now ≤ most_requests }
    ensures found { result ≡ true
        → (worker : ℕ)
        × (is_enabled (S.meaning structure.now) layout requests.now runner part.now (kinds.Join worker) ≡ true) }
    ensures missed { result ≡ false → (worker : ℕ) → worker < layout.runners
        → is_enabled (S.meaning structure.now) layout requests.now runner part.now (kinds.Join worker) ≡ false }
{
    for worker in 0..layout.runners {
        if may(
            part,
            structure,
            layout,
            requests,
            runner,
            EventKind::Join(worker),
        ) {
            return true;
        }
    }
    false
}
