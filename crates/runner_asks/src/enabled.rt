//! Which word an event meets, and how; none where it isn't enabled.
ghost use Rattle.std.specs.Prelude.{◌≡◌, ◌<◌, ◌^◌, ◌≤◌, length};
ghost use Rattle.runner_steps.specs.map_history.specs.Requests.{most_requests};
ghost use Rattle.runner_steps.specs.table_words.specs.Limits.{IsWithinLimits};
ghost use Rattle.runner_steps.specs.table_words.specs.Places.{sizes_of};
ghost use Rattle.runner_steps.specs.Asks.{outside_ask, line_ask, opening_ask, inside_ask, ask_by, fitting, sizes_for, asks};

use crate::board::{board_give_ask, board_load_ask, board_take_ask};
use crate::guards::{guard_ask, load_guard_ask};
use crate::inside::{
    clock_load_ask, clock_raise_ask, commit_ask, epoch_for_retire_ask, exchange_cell_ask,
    fill_load_ask, is_open_run, link_commit_ask, load_cell_ask, load_done_ask, make_commit_ask,
    nested_hold_ask, nested_load_ask, next_of, open_more_ask, outcome_commit_ask, outcome_load_ask,
    private_store_in_run_ask, release_ask, reply_exchange_ask, retire_commit_ask, set_done_ask,
    stamp_exchange_ask,
};
use crate::outside::{
    advance_ask, announce_ask, enter_again_ask, enter_load_ask, entry_ask, hold_ask, idle_ask,
    join_ask, open_ask, private_load_ask, private_store_ask, read_ask, scan_one_ask, split_ask,
};
use crate::reads::{read_clock_ask, read_plan_ask, read_reply_ask, read_stamp_ask};
use runner_steps::body_terms::Micro;
use runner_steps::map_history::Request;
use runner_steps::runner_parts::structure_laws::Structure;
use runner_steps::runner_parts::{EventKind, Part, Run};
use runner_steps::sizes_for;
use runner_steps::table_words::{Access, Layout, Sizes, Spot};

/// Only words that the table has.
fn fitting(sizes: Sizes, ask: Option<(Spot, Access)>) -> Option<(Spot, Access)>
    ensures { result ≡ fitting sizes ask }
{
    match ask {
        None => None,
        Some((spot, access)) => {
            if spot.fits(sizes) {
                Some((spot, access))
            } else {
                None
            }
        }
    }
}

/// What a run asks that has loaded its thunk and its done word, and stands before this step; `free` is the list of free
/// node slots, and `blocks` that of free blocks.
fn line_ask<S: Structure>(
    run: &Run,
    structure: &S,
    layout: Layout,
    kind: &EventKind,
    free: &[u32],
    blocks: &[u32],
    micro: &Micro,
) -> Option<(Spot, Access)>
    requires limits { IsWithinLimits layout }
    requires opened { 12 ≤ length run.now.opened }
    ensures { result ≡ line_ask (S.meaning structure.now) layout kind.now free.now blocks.now run.now micro.now }
{
    match kind {
        EventKind::Commit => commit_ask(run, micro),
        EventKind::LoadCell(None) => load_cell_ask(run, micro),
        EventKind::ExchangeCell => exchange_cell_ask(run, layout, micro),
        EventKind::PrivateLoad { slot, word } => {
            fill_load_ask(run, structure, layout, *slot, *word, free, micro)
        }
        EventKind::PrivateStore { slot, word, number } => {
            private_store_in_run_ask(run, structure, layout, *slot, *word, *number, blocks, micro)
        }
        EventKind::LinkCommit(block) => link_commit_ask(run, layout, *block, micro),
        EventKind::MakeCommit => make_commit_ask(run, micro),
        EventKind::RetireCommit => retire_commit_ask(run, micro),
        EventKind::EpochForRetire => epoch_for_retire_ask(run, micro),
        EventKind::SetDone => set_done_ask(run, micro),
        EventKind::Release => release_ask(run, layout, micro),
        EventKind::ClockLoad => clock_load_ask(run, micro),
        EventKind::StampExchange => stamp_exchange_ask(run, micro),
        EventKind::ClockRaise => clock_raise_ask(run, micro),
        EventKind::ReplyExchange => reply_exchange_ask(run, micro),
        EventKind::NestedLoad => nested_load_ask(run, micro),
        EventKind::NestedHold => nested_hold_ask(run, layout, micro),
        EventKind::OutcomeLoad => outcome_load_ask(run, micro),
        EventKind::OutcomeCommit => outcome_commit_ask(run, micro),
        _ => None,
    }
}

/// What a run asks that has still to load words of its thunk, or its done word.
fn opening_ask(run: &Run, kind: &EventKind) -> Option<(Spot, Access)>
    ensures { result ≡ opening_ask kind.now run.now }
{
    match kind {
        EventKind::LoadThunk(None) => open_more_ask(run),
        EventKind::LoadDone => load_done_ask(run),
        _ => None,
    }
}

/// What a run asks.
fn inside_ask<S: Structure>(
    run: &Run,
    structure: &S,
    layout: Layout,
    kind: &EventKind,
    free: &[u32],
    blocks: &[u32],
) -> Option<(Spot, Access)>
    requires { IsWithinLimits layout }
    ensures { result ≡ inside_ask (S.meaning structure.now) layout kind.now free.now blocks.now run.now }
{
    if is_open_run(run) {
        let micro = next_of(run, structure);
        line_ask(run, structure, layout, kind, free, blocks, &micro)
    } else {
        opening_ask(run, kind)
    }
}

/// What a runner in no run asks, by the kind of its step.
fn outside_ask<S: Structure>(
    part: &Part,
    structure: &S,
    layout: Layout,
    requests: &[Request],
    runner: u32,
    kind: &EventKind,
) -> Option<(Spot, Access)>
    requires { IsWithinLimits layout }
    ensures { result ≡ outside_ask (S.meaning structure.now) layout requests.now runner kind.now part.now }
{
    match kind {
        EventKind::EnterLoad | EventKind::ScanEpoch => enter_load_ask(part.stage),
        EventKind::Announce => announce_ask(runner, part.stage),
        EventKind::EnterAgain => enter_again_ask(part),
        EventKind::Idle => idle_ask(part, runner),
        EventKind::ScanOne(number) => scan_one_ask(layout, *number, part.stage),
        EventKind::Advance => advance_ask(layout, part.stage),
        EventKind::Split => split_ask(part, layout, runner),
        EventKind::Join(worker) => join_ask(part, layout, runner, *worker),
        EventKind::LoadCell(Some(place)) => read_ask(part, structure, *place),
        EventKind::LoadEntry { request, reply } => entry_ask(part, *request, *reply),
        EventKind::PrivateLoad { slot, word } => private_load_ask(
            part, structure, layout, *slot, *word,
        ),
        EventKind::PrivateStore { slot, word, number } => {
            private_store_ask(part, structure, layout, *slot, *word, *number)
        }
        EventKind::Hold { thunk, descriptor } => {
            hold_ask(
                part,
                structure,
                layout,
                requests,
                runner,
                thunk,
                *descriptor,
            )
        }
        EventKind::LoadThunk(Some(descriptor)) => open_ask(part, *descriptor),
        EventKind::ReadPlan(thunk) => read_plan_ask(part, runner, thunk),
        EventKind::ReadClock => read_clock_ask(part),
        EventKind::ReadReply => read_reply_ask(part, structure, layout, requests, runner),
        EventKind::ReadStamp => read_stamp_ask(part),
        EventKind::Guard(descriptor) => guard_ask(part, layout, runner, *descriptor),
        EventKind::LoadGuard(number) => load_guard_ask(part, layout, *number),
        EventKind::BoardLoad(word) => board_load_ask(part, layout, runner, *word),
        EventKind::BoardTake(word, link) => board_take_ask(part, layout, runner, *word, *link),
        EventKind::BoardGive(word, slot) => board_give_ask(part, layout, runner, *word, *slot),
        _ => None,
    }
}

/// The word that this event meets on this part, and what it does there; None where the event isn't enabled.
pub fn asks<S: Structure>(
    part: &Part,
    structure: &S,
    layout: Layout,
    requests: &[Request],
    runner: u32,
    kind: &EventKind,
) -> Option<(Spot, Access)>
    requires limits { IsWithinLimits layout }
    requires few { length requests.now ≤ most_requests }
    ensures { result ≡ asks (S.meaning structure.now) layout requests.now runner kind.now part.now }
{
    if part.gone {
        return None;
    }
    let sizes = sizes_for(structure, layout, requests);
    match &part.run {
        None => fitting(
            sizes,
            outside_ask(part, structure, layout, requests, runner, kind),
        ),
        Some(run) => fitting(
            sizes,
            inside_ask(
                run,
                structure,
                layout,
                kind,
                &part.nodes.free,
                &part.blocks.free,
            ),
        ),
    }
}
