//! The part after an event.
ghost use Rattle.std.specs.Prelude.{◌≡◌, ◌<◌, length, OnOk};
ghost use Rattle.runner_steps.specs.table_words.specs.Limits.{IsWithinLimits};
ghost use Rattle.runner_steps.specs.table_words.specs.Access.{written, wins};
ghost use Rattle.runner_steps.specs.AfterInRun.{with_run};
ghost use Rattle.runner_steps.specs.After.{line_after, stepped, counted, epoch_after, own_epoch, is_busy, is_moved, is_late_join, left_more, noted, after};
ghost use Rattle.runner_steps.specs.Reads.{only_loads_after};

use crate::blocks::{blocks_after, board_after};
use crate::inside::{place_of, reply_word_of, retired_slot_of};
use crate::line::{
    cell_exchanged, cell_loaded, clock_raised, done_set, fill_loaded, link_committed,
    lock_released, make_committed, number_loaded, opened_more, private_stored, reply_agreed,
    retire_committed, stamp_agreed, word_committed,
};
use crate::outside::outside_after;
use runner_asks::{is_open_run, next_of};
use runner_steps::body_terms::Micro;
use runner_steps::runner_parts::structure_laws::Structure;
use runner_steps::runner_parts::{EventKind, Left, Part, Records, Run};
use runner_steps::table_words::{Access, Layout, Spot};
use std::alloc::{AllocError, Global};

/// The part after an event of a run that stood before this step.
fn line_after<S: Structure>(
    part: &mut Part,
    alloc: Global,
    run: Run,
    structure: &S,
    layout: Layout,
    kind: &EventKind,
    micro: &Micro,
    found: u64,
) -> Result<(), AllocError>
    requires limits { IsWithinLimits layout }
    requires opened { length run.opened ≡ 13 }
    requires at { run.at < 440 }
    requires ended { run.ended < 440 }
    ensures { OnOk result (part.new ≡ line_after (S.meaning structure.now) layout kind.now (with_run part.old run) run
        micro.now found) }
{
    match kind {
        EventKind::Commit | EventKind::OutcomeCommit => {
            return word_committed(part, run, structure, layout, found);
        }
        EventKind::LoadCell(_) | EventKind::NestedLoad | EventKind::OutcomeLoad => {
            return cell_loaded(part, run, structure, layout, place_of(micro), found);
        }
        EventKind::ExchangeCell | EventKind::NestedHold => {
            return cell_exchanged(part, run, structure, layout, place_of(micro), found);
        }
        EventKind::PrivateLoad { slot, word: _ } => {
            return fill_loaded(part, alloc, run, structure, layout, *slot, found);
        }
        EventKind::PrivateStore {
            slot,
            word: _,
            number,
        } => private_stored(part, run, structure, layout, *slot, *number, micro),
        EventKind::LinkCommit(block) => return link_committed(part, run, *block, found),
        EventKind::MakeCommit => {
            return make_committed(part, alloc, run, structure, layout, found);
        }
        EventKind::RetireCommit => {
            return retire_committed(part, run, structure, layout, retired_slot_of(micro), found);
        }
        EventKind::EpochForRetire | EventKind::ClockLoad => {
            number_loaded(part, run, structure, layout, found);
        }
        EventKind::SetDone => done_set(part, run),
        EventKind::Release => {
            return lock_released(part, alloc, run, structure, layout, place_of(micro), found);
        }
        EventKind::StampExchange => return stamp_agreed(part, run, structure, layout, found),
        EventKind::ClockRaise => clock_raised(part, run, structure, layout),
        EventKind::ReplyExchange => {
            return reply_agreed(part, run, structure, layout, reply_word_of(micro), found);
        }
        _ => part.run = Some(run),
    }
    Ok(())
}

/// The part after the event, which found this word.
fn stepped<S: Structure>(
    part: &mut Part,
    alloc: Global,
    structure: &S,
    layout: Layout,
    kind: &EventKind,
    found: u64,
) -> Result<(), AllocError>
    requires { IsWithinLimits layout }
    ensures { OnOk result (part.new ≡ stepped (S.meaning structure.now) layout kind.now part.old found) }
{
    match part.run.take() {
        None => outside_after(part, alloc, structure, layout, kind, found),
        Some(run) => {
            if is_open_run(&run) {
                let micro = next_of(&run, structure);
                line_after(part, alloc, run, structure, layout, kind, &micro, found)
            } else {
                opened_more(part, run, found)
            }
        }
    }
}

/// One more, up to the greatest number of 64 bits.
fn counted(number: u64) -> u64
    ensures { result ≡ counted number }
{
    number.saturating_add(1)
}

/// The epoch as the runner's steps last saw or left it, when one more left this number at this spot.
fn epoch_after(spot: Spot, number: u64, epoch: u64) -> u64
    ensures { result ≡ epoch_after spot number epoch }
{
    match spot {
        Spot::Epoch => number,
        _ => epoch,
    }
}

/// What the epoch is for a runner whose own steps last saw or left this: at first it is 1.
fn own_epoch(epoch: u64) -> u64
    ensures { result ≡ own_epoch epoch }
{
    if epoch == 0 { 1 } else { epoch }
}

/// The step read an announcement that isn't idle, or a guard word that names a descriptor.
fn is_busy(kind: &EventKind, found: u64) -> bool
    ensures { result ≡ is_busy kind.now found }
{
    match kind {
        EventKind::ScanOne(_) | EventKind::LoadGuard(_) => found != 0,
        _ => false,
    }
}

/// The step found the epoch other than the runner's own steps had left it.
fn is_moved(spot: Spot, found: u64, epoch: u64) -> bool
    ensures { result ≡ is_moved spot found epoch }
{
    match spot {
        Spot::Epoch => found != own_epoch(epoch),
        _ => false,
    }
}

/// The keeper joins a worker when its own steps have met the epoch.
fn is_late_join(kind: &EventKind, epoch: u64) -> bool
    ensures { result ≡ is_late_join kind.now epoch }
{
    match kind {
        EventKind::Join(_) => epoch != 0,
        _ => false,
    }
}

/// What the keeper's steps since the last join left.
fn left_more(
    left: &mut Vec<Left>,
    alloc: Global,
    kind: &EventKind,
    spot: Spot,
    number: u64,
) -> Result<(), AllocError>
    ensures { OnOk result (left.new.items ≡ left_more kind.now spot number left.old.items) }
{
    match kind {
        EventKind::Join(_) => *left = Vec::new(alloc),
        _ => left.push(Left { spot, number })?,
    }
    Ok(())
}

/// Whether the runner has made no other step than loads of cells since it entered, and those with which a read begins.
fn only_loads_after(kind: &EventKind, before: bool) -> bool
    ensures { result ≡ only_loads_after kind.now before }
{
    match kind {
        EventKind::EnterAgain => true,
        EventKind::LoadCell(_) | EventKind::ReadPlan(_) | EventKind::ReadClock => before,
        _ => false,
    }
}

/// One more step was made, which found this number at this spot; it is counted among those that won where it
/// changed its word by an exchange or a raise.
fn note(
    records: &mut Records,
    alloc: Global,
    layout: Layout,
    runner: u32,
    kind: &EventKind,
    spot: Spot,
    access: Access,
    found: u64,
) -> Result<(), AllocError>
    ensures { OnOk result (records.new ≡ noted layout runner kind.now spot access found records.old) }
{
    let number = access.written(found);
    records.events = counted(records.events);
    if access.wins(found) {
        records.won = counted(records.won);
    }
    records.crossed = is_busy(kind, found)
        || is_moved(spot, found, records.epoch_seen)
        || records.crossed;
    records.crosses = is_late_join(kind, records.epoch_seen) || records.crosses;
    records.epoch_seen = epoch_after(spot, number, records.epoch_seen);
    records.only_loads = only_loads_after(kind, records.only_loads);
    if runner == layout.runners {
        left_more(&mut records.left, alloc, kind, spot, number)
    } else {
        Ok(())
    }
}

/// The stepping runner's part after the event, which met this spot and found this word.
pub fn after<S: Structure>(
    part: &mut Part,
    alloc: Global,
    structure: &S,
    layout: Layout,
    runner: u32,
    kind: &EventKind,
    spot: Spot,
    access: Access,
    found: u64,
) -> Result<(), AllocError>
    requires { IsWithinLimits layout }
    ensures { OnOk result (part.new ≡ after (S.meaning structure.now) layout runner kind.now spot access part.old
        found) }
{
    let blocks = blocks_after(alloc, part, structure, layout, kind, found)?;
    let board = board_after(alloc, &part.board, kind, found)?;
    stepped(part, alloc, structure, layout, kind, found)?;
    note(
        &mut part.records,
        alloc,
        layout,
        runner,
        kind,
        spot,
        access,
        found,
    )?;
    part.blocks = blocks;
    part.board = board;
    Ok(())
}
