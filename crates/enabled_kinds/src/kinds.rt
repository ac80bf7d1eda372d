//! The kinds of step that a runner may make next.
ghost use Rattle.std.specs.Prelude.{◌≡◌, ◌≤◌, ◌||◌, length};
ghost use Rattle.std.specs.List.{list_any};
ghost use Rattle.machine_states.specs.map_history.specs.Requests.{most_requests};
ghost use Rattle.machine_states.specs.table_words.specs.Limits.{IsWithinLimits};
ghost use Rattle.enabled_kinds.specs.May.{Tells, AreEnabled, is_enabled_if};

use crate::arguments::{
    may, may_announce_read, may_begin, may_empty, may_give, may_join, may_link, may_look_free,
    may_look_guard, may_look_hand, may_prepare, may_publish, may_reread, may_reread_block,
    may_scan, may_take, may_walk,
};
use crate::makes::{made_load, made_store};
use crate::plain::plain_kind;
use machine_states::map_history::Request;
use machine_states::runner_parts::{EventKind, Part};
use machine_states::structure_laws::Structure;
use machine_states::table_words::Layout;

/// Whether there is this event and the runner may make it next.
fn may_if<S: Structure>(
    part: &Part,
    structure: &S,
    layout: Layout,
    requests: &[Request],
    runner: u32,
    kind: Option<EventKind>,
) -> bool
    requires limits { IsWithinLimits layout }
    requires few { length requests.now ≤ most_requests }
    ensures { result ≡ is_enabled_if (S.meaning structure.now) layout requests.now runner part.now kind }
{
    match kind {
        None => false,
        Some(kind) => may(part, structure, layout, requests, runner, kind),
    }
}

/// Whether it may load a cell.
fn may_load_cell<S: Structure>(
    part: &Part,
    structure: &S,
    layout: Layout,
    requests: &[Request],
    runner: u32,
) -> bool
    requires limits { IsWithinLimits layout }
    requires few { length requests.now ≤ most_requests }
    ensures { Tells (S.meaning structure.now) layout requests.now runner part.now 9 result }
{
    let inside = may(
        part,
        structure,
        layout,
        requests,
        runner,
        EventKind::LoadCell(None),
    );
    let outside = may_walk(part, structure, layout, requests, runner);
    inside | outside
}

/// Whether it may load a word privately.
fn may_load_private<S: Structure>(
    part: &Part,
    structure: &S,
    layout: Layout,
    requests: &[Request],
    runner: u32,
) -> bool
    requires limits { IsWithinLimits layout }
    requires few { length requests.now ≤ most_requests }
    ensures { Tells (S.meaning structure.now) layout requests.now runner part.now 11 result }
{
    let free = may_look_free(part, structure, layout, requests, runner);
    let hand = may_look_hand(part, structure, layout, requests, runner);
    let descriptor = may_reread(part, structure, layout, requests, runner);
    let block = may_reread_block(part, structure, layout, requests, runner);
    let made = made_load(part, structure);
    let inside = may_if(part, structure, layout, requests, runner, made);
    free | (hand | (descriptor | (block | inside)))
}

/// Whether it may store into a word privately.
fn may_store_private<S: Structure>(
    part: &Part,
    structure: &S,
    layout: Layout,
    requests: &[Request],
    runner: u32,
) -> bool
    requires limits { IsWithinLimits layout }
    requires few { length requests.now ≤ most_requests }
    ensures { Tells (S.meaning structure.now) layout requests.now runner part.now 12 result }
{
    let descriptor = may_prepare(part, structure, layout, requests, runner);
    let block = may_empty(part, structure, layout, requests, runner);
    let made = made_store(part, structure, layout);
    let inside = may_if(part, structure, layout, requests, runner, made);
    descriptor | (block | inside)
}

/// Whether it may load a thunk word.
fn may_load_thunk<S: Structure>(
    part: &Part,
    structure: &S,
    layout: Layout,
    requests: &[Request],
    runner: u32,
) -> bool
    requires limits { IsWithinLimits layout }
    requires few { length requests.now ≤ most_requests }
    ensures { Tells (S.meaning structure.now) layout requests.now runner part.now 16 result }
{
    let further = may(
        part,
        structure,
        layout,
        requests,
        runner,
        EventKind::LoadThunk(None),
    );
    let first = may_begin(part, structure, layout, requests, runner);
    further | first
}

/// Whether it may load the clock, in a run or for a read without a lock.
fn may_load_clock<S: Structure>(
    part: &Part,
    structure: &S,
    layout: Layout,
    requests: &[Request],
    runner: u32,
) -> bool
    requires limits { IsWithinLimits layout }
    requires few { length requests.now ≤ most_requests }
    ensures { Tells (S.meaning structure.now) layout requests.now runner part.now 21 result }
{
    let inside = may(
        part,
        structure,
        layout,
        requests,
        runner,
        EventKind::ClockLoad,
    );
    let outside = may(
        part,
        structure,
        layout,
        requests,
        runner,
        EventKind::ReadClock,
    );
    inside | outside
}

/// Whether it may make a step of the kind with this number.
fn may_make<S: Structure>(
    part: &Part,
    structure: &S,
    layout: Layout,
    requests: &[Request],
    runner: u32,
    number: u32,
) -> bool
    requires limits { IsWithinLimits layout }
    requires few { length requests.now ≤ most_requests }
    ensures { Tells (S.meaning structure.now) layout requests.now runner part.now number result }
{
    match number {
        5 => may_scan(part, structure, layout, requests, runner),
        9 => may_load_cell(part, structure, layout, requests, runner),
        11 => may_load_private(part, structure, layout, requests, runner),
        12 => may_store_private(part, structure, layout, requests, runner),
        16 => may_load_thunk(part, structure, layout, requests, runner),
        18 => may_publish(part, structure, layout, requests, runner),
        21 => may_load_clock(part, structure, layout, requests, runner),
        25 => may_join(part, structure, layout, requests, runner),
        26 => {
            let first = EventKind::LoadEntry {
                request: 0,
                reply: false,
            };
            may(part, structure, layout, requests, runner, first)
        }
        31 => may_link(part, structure, layout, requests, runner),
        32 => {
            let first = EventKind::BoardLoad(0);
            may(part, structure, layout, requests, runner, first)
        }
        33 => may_take(part, structure, layout, requests, runner),
        34 => may_give(part, structure, layout, requests, runner),
        37 => {
            let cleared = EventKind::Guard(None);
            may(part, structure, layout, requests, runner, cleared)
        }
        38 => may_look_guard(part, structure, layout, requests, runner),
        39 => may_announce_read(part, structure, layout, requests, runner),
        _ => may_if(
            part,
            structure,
            layout,
            requests,
            runner,
            plain_kind(number),
        ),
    }
}

/// The kinds of step that the runner may make next: bit `k` is set exactly where some event of the kind
/// with number `k` is enabled.
pub fn enabled<S: Structure>(
    part: &Part,
    structure: &S,
    layout: Layout,
    requests: &[Request],
    runner: u32,
) -> u64
    requires limits { IsWithinLimits layout }
    requires few { length requests.now ≤ most_requests }
    ensures { AreEnabled (S.meaning structure.now) layout requests.now runner part.now result }
{
    let mut bits = 0;
    for number in 0..40u32 {
        if may_make(part, structure, layout, requests, runner, number) {
            bits |= 1u64 << number;
        }
    }
    bits
}
