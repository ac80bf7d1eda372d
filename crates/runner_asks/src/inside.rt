//! Which word the next event of a run meets, and how.
ghost use Rattle.std.specs.Prelude.{◌≡◌, ◌≤◌, ◌<◌, ◌-◌, ◌^◌, ◌==◌, ◌&&◌, length, Some};
ghost use Rattle.runner_steps.specs.table_words.specs.Limits.{IsWithinLimits};
ghost use Rattle.runner_steps.specs.body_terms.specs.Run.{source_value};
ghost use Rattle.runner_steps.specs.body_terms.specs.Word.{version_of, next_word};
ghost use Rattle.runner_steps.specs.Sections.{is_open_run, next_of, is_beyond, needs_link};
ghost use Rattle.runner_steps.specs.InRun.{open_more_ask, load_done_ask, commit_to, commit_ask, load_cell_ask, exchange_cell_ask, can_raise, last_of, make_slot, is_slot, is_cell, fill_load_ask, fill_store_ask, block_empty_ask, private_store_in_run_ask, link_commit_ask, make_commit_ask, retire_commit_ask, epoch_for_retire_ask, clock_load_ask, stamp_exchange_ask, clock_raise_ask, reply_exchange_ask, nested_load_ask, can_hold, nested_hold_ask, outcome_load_ask, outcome_commit_ask, set_done_ask, release_ask};

use crate::section::{LINE_LIMIT, agreed, next_micro, source_value, thunk_of};
use runner_steps::block_words::{link_spot, log_spot};
use runner_steps::body_terms::{Micro, Source, Word};
use runner_steps::runner_parts::Run;
use runner_steps::runner_parts::structure_laws::Structure;
use runner_steps::table_words::{Access, BLOCK_WORDS, Layout, PART_WORDS, Spot};
use runner_steps::{
    block_count, block_spot, blocks_from, cell_place, descriptor_count, slot_count,
};

/// The clock number from which on no stamp is made.
pub const LAST_CLOCK: u64 = 1 << 62;

/// The last of a list.
pub fn last_of(numbers: &[u32]) -> Option<u32>
    ensures { result ≡ last_of numbers.now }
{
    if numbers.len() == 0 {
        None
    } else {
        Some(numbers[numbers.len() - 1])
    }
}

/// The slot that a Make fills: the one in the own hand, or, at its first step, the last of the free list.
fn make_slot(made: Option<u32>, free: &[u32]) -> Option<u32>
    ensures { result ≡ make_slot made free.now }
{
    match made {
        None => last_of(free),
        Some(slot) => Some(slot),
    }
}

fn is_slot(made: Option<u32>, slot: u32) -> bool
    ensures { result ≡ is_slot made slot }
{
    match made {
        None => false,
        Some(own) => own == slot,
    }
}

/// Whether the word's version is below the greatest, so that the cell can be changed once more.
fn can_raise(layout: Layout, word: u64) -> bool
    ensures { result ≡ can_raise layout word }
{
    Word::from_bits(word).version() < layout.version_max
}

/// The word that follows this one in its cell, with this value.
fn next_word(word: u64, value: u32) -> u64
    requires { version_of word < 2 ^ 32 - 1 }
    ensures { result ≡ next_word word value }
{
    Word::pack(value, Word::from_bits(word).version() + 1).bits()
}

/// Whether the descriptor is one of the table's, and the free word of the lock can be changed.
fn can_hold(layout: Layout, descriptor: u32, word: u64) -> bool
    requires { IsWithinLimits layout }
    ensures { result ≡ can_hold layout descriptor word }
{
    descriptor < descriptor_count(layout) && can_raise(layout, word)
}

/// Whether the slot is one of the table's, and has this cell.
fn is_cell<S: Structure>(structure: &S, layout: Layout, slot: u32, word: u32) -> bool
    requires { IsWithinLimits layout }
    ensures { result ≡ is_cell (S.meaning structure.now) layout slot word }
{
    slot < slot_count(structure, layout) && word < 5
}

/// The thunk words and the done word have all been loaded.
pub fn is_open_run(run: &Run) -> bool
    ensures { result ≡ is_open_run run.now }
{
    run.opened.len() == 13 && run.at < LINE_LIMIT && run.ended < LINE_LIMIT
}

/// The step on a shared word that comes next.
pub fn next_of<S: Structure>(run: &Run, structure: &S) -> Micro
    requires { 12 ≤ length run.now.opened }
    ensures { result ≡ next_of (S.meaning structure.now) run.now }
{
    let thunk = thunk_of(&run.opened);
    let body = structure.body(&thunk);
    next_micro(&body, run.at, run.ended, thunk.lock, thunk.word)
}

pub fn open_more_ask(run: &Run) -> Option<(Spot, Access)>
    ensures { result ≡ open_more_ask run.now }
{
    let word = run.opened.len();
    if word < 12 {
        Some((Spot::ThunkWord(run.descriptor, word as u32), Access::Loads))
    } else {
        None
    }
}

pub fn load_done_ask(run: &Run) -> Option<(Spot, Access)>
    ensures { result ≡ load_done_ask run.now }
{
    if run.opened.len() == 12 {
        Some((Spot::DoneWord(run.descriptor), Access::Loads))
    } else {
        None
    }
}

/// Whether this place is in a part of the log that isn't linked yet, as far as the run knows.
fn is_beyond(run: &Run, log: u32) -> bool
    ensures { result ≡ is_beyond run.now (Some log) }
{
    run.links.len() < log as usize / PART_WORDS
}

/// Whether the run links a block before this step.
pub fn needs_link(run: &Run, micro: &Micro) -> bool
    ensures { result ≡ needs_link run.now micro.now }
{
    match micro {
        Micro::Commit { place: _, log }
        | Micro::NestedCommit { place: _, log }
        | Micro::OutcomeCommit { place: _, log }
        | Micro::MakeCommit { log }
        | Micro::RetireCommit { slot: _, log } => is_beyond(run, *log),
        _ => false,
    }
}

/// One word is agreed on: this proposal, where the log word is still empty. Its part of the log has to be linked
/// before.
fn commit_to(run: &Run, log: u32, proposal: u64) -> Option<(Spot, Access)>
    ensures { result ≡ commit_to run.now log proposal }
{
    if is_beyond(run, log) {
        None
    } else {
        Some((
            log_spot(run.descriptor, &run.links, log),
            Access::Exchanges(0, proposal),
        ))
    }
}

/// Before a commit into a part that isn't linked, 0 goes into the words of an own block and into its link, one after
/// the other. The block is the one in the own hand, or, at its first word, the last of the free list.
fn block_empty_ask<S: Structure>(
    run: &Run,
    structure: &S,
    layout: Layout,
    slot: u32,
    word: u32,
    number: u64,
    free: &[u32],
) -> Option<(Spot, Access)>
    requires { IsWithinLimits layout }
    ensures { result ≡ block_empty_ask (S.meaning structure.now) layout slot word number free.now run.now }
{
    let from = blocks_from(structure, layout);
    if from <= slot
        && is_slot(make_slot(run.block, free), slot - from)
        && word == run.emptied
        && (word as usize) < BLOCK_WORDS
        && number == 0
    {
        Some((block_spot(slot - from, word), Access::Stores(number)))
    } else {
        None
    }
}

/// A private store of a run: into a block where it is to link one, and otherwise that of a Make. `blocks` is the list
/// of free blocks.
pub fn private_store_in_run_ask<S: Structure>(
    run: &Run,
    structure: &S,
    layout: Layout,
    slot: u32,
    word: u32,
    number: u64,
    blocks: &[u32],
    micro: &Micro,
) -> Option<(Spot, Access)>
    requires { IsWithinLimits layout }
    ensures { result ≡ private_store_in_run_ask (S.meaning structure.now) layout slot word number blocks.now run.now
        micro.now }
{
    if needs_link(run, micro) {
        block_empty_ask(run, structure, layout, slot, word, number, blocks)
    } else {
        fill_store_ask(run, structure, layout, slot, word, number, micro)
    }
}

/// And then the number of this block goes into the link behind the section's last part.
pub fn link_commit_ask(
    run: &Run,
    layout: Layout,
    block: u32,
    micro: &Micro,
) -> Option<(Spot, Access)>
    requires { IsWithinLimits layout }
    ensures { result ≡ link_commit_ask layout block run.now micro.now }
{
    if needs_link(run, micro)
        && run.emptied as usize == BLOCK_WORDS
        && is_slot(run.block, block)
        && block < block_count(layout)
    {
        Some((
            link_spot(run.descriptor, &run.links),
            Access::Exchanges(0, block as u64 + 1),
        ))
    } else {
        None
    }
}

pub fn commit_ask(run: &Run, micro: &Micro) -> Option<(Spot, Access)>
    ensures { result ≡ commit_ask run.now micro.now }
{
    match micro {
        Micro::Commit { place: _, log } | Micro::NestedCommit { place: _, log } => commit_to(
            run, *log, run.word,
        ),
        _ => None,
    }
}

pub fn exchange_cell_ask(run: &Run, layout: Layout, micro: &Micro) -> Option<(Spot, Access)>
    requires { layout.version_max < 2 ^ 32 }
    ensures { result ≡ exchange_cell_ask layout run.now micro.now }
{
    match micro {
        Micro::ExchangeCell { place, log, value } => {
            let old = agreed(&run.trail, *log);
            if can_raise(layout, old) {
                let new = next_word(old, source_value(&run.trail, *value));
                Some((Spot::Cell(*place), Access::Exchanges(old, new)))
            } else {
                None
            }
        }
        _ => None,
    }
}

pub fn fill_load_ask<S: Structure>(
    run: &Run,
    structure: &S,
    layout: Layout,
    slot: u32,
    word: u32,
    free: &[u32],
    micro: &Micro,
) -> Option<(Spot, Access)>
    requires { IsWithinLimits layout }
    ensures { result ≡ fill_load_ask (S.meaning structure.now) layout slot word free.now run.now micro.now }
{
    match micro {
        Micro::PrivateLoad { cell, log: _ } => {
            if is_cell(structure, layout, slot, word)
                && is_slot(make_slot(run.made, free), slot)
                && word == *cell
            {
                Some((
                    Spot::Cell(cell_place(structure, layout, slot, word)),
                    Access::Loads,
                ))
            } else {
                None
            }
        }
        _ => None,
    }
}

fn fill_store_ask<S: Structure>(
    run: &Run,
    structure: &S,
    layout: Layout,
    slot: u32,
    word: u32,
    number: u64,
    micro: &Micro,
) -> Option<(Spot, Access)>
    requires { IsWithinLimits layout }
    ensures { result ≡ fill_store_ask (S.meaning structure.now) layout slot word number run.now micro.now }
{
    match micro {
        Micro::PrivateStore {
            cell,
            log: _,
            value,
        } => {
            if is_cell(structure, layout, slot, word)
                && is_slot(run.made, slot)
                && word == *cell
                && is_next_word(run, layout, *value, number)
            {
                Some((
                    Spot::Cell(cell_place(structure, layout, slot, word)),
                    Access::Stores(number),
                ))
            } else {
                None
            }
        }
        _ => None,
    }
}

/// Whether this number is the word that follows the one loaded last, with this value.
fn is_next_word(run: &Run, layout: Layout, value: Source, number: u64) -> bool
    requires { layout.version_max < 2 ^ 32 }
    ensures { result ≡ (can_raise layout run.now.word
        && number == next_word run.now.word (source_value run.now.trail value)) }
{
    can_raise(layout, run.word) && number == next_word(run.word, source_value(&run.trail, value))
}

pub fn make_commit_ask(run: &Run, micro: &Micro) -> Option<(Spot, Access)>
    ensures { result ≡ make_commit_ask run.now micro.now }
{
    match micro {
        Micro::MakeCommit { log } => match run.made {
            None => None,
            Some(slot) => commit_to(run, *log, slot as u64 + 1),
        },
        _ => None,
    }
}

pub fn retire_commit_ask(run: &Run, micro: &Micro) -> Option<(Spot, Access)>
    ensures { result ≡ retire_commit_ask run.now micro.now }
{
    match micro {
        Micro::RetireCommit { slot, log } => commit_to(run, *log, *slot as u64 + 1),
        _ => None,
    }
}

pub fn stamp_exchange_ask(run: &Run, micro: &Micro) -> Option<(Spot, Access)>
    requires { 12 ≤ length run.now.opened }
    ensures { result ≡ stamp_exchange_ask run.now micro.now }
{
    match micro {
        Micro::StampExchange => {
            if run.word < LAST_CLOCK {
                let thunk = thunk_of(&run.opened);
                Some((
                    Spot::Stamp(thunk.request),
                    Access::Exchanges(0, 2 * (run.word + 1)),
                ))
            } else {
                None
            }
        }
        _ => None,
    }
}

pub fn clock_raise_ask(run: &Run, micro: &Micro) -> Option<(Spot, Access)>
    ensures { result ≡ clock_raise_ask run.now micro.now }
{
    match micro {
        Micro::ClockRaise => Some((Spot::Clock, Access::Raises(run.word / 2))),
        _ => None,
    }
}

pub fn reply_exchange_ask(run: &Run, micro: &Micro) -> Option<(Spot, Access)>
    requires { 12 ≤ length run.now.opened }
    ensures { result ≡ reply_exchange_ask run.now micro.now }
{
    match micro {
        Micro::ReplyExchange { reply } => {
            let thunk = thunk_of(&run.opened);
            Some((Spot::Reply(thunk.request), Access::Exchanges(0, *reply)))
        }
        _ => None,
    }
}

pub fn nested_hold_ask(run: &Run, layout: Layout, micro: &Micro) -> Option<(Spot, Access)>
    requires { IsWithinLimits layout }
    ensures { result ≡ nested_hold_ask layout run.now micro.now }
{
    match micro {
        Micro::NestedHold { place, word } => {
            let free = word.bits();
            if can_hold(layout, run.descriptor, free) {
                let held = next_word(free, run.descriptor + 1);
                Some((Spot::Cell(*place), Access::Exchanges(free, held)))
            } else {
                None
            }
        }
        _ => None,
    }
}

pub fn outcome_commit_ask(run: &Run, micro: &Micro) -> Option<(Spot, Access)>
    ensures { result ≡ outcome_commit_ask run.now micro.now }
{
    match micro {
        Micro::OutcomeCommit { place: _, log } => commit_to(run, *log, run.word),
        _ => None,
    }
}

pub fn set_done_ask(run: &Run, micro: &Micro) -> Option<(Spot, Access)>
    ensures { result ≡ set_done_ask run.now micro.now }
{
    match micro {
        Micro::SetDone => Some((Spot::DoneWord(run.descriptor), Access::Exchanges(0, 1))),
        _ => None,
    }
}

pub fn release_ask(run: &Run, layout: Layout, micro: &Micro) -> Option<(Spot, Access)>
    requires { IsWithinLimits layout }
    ensures { result ≡ release_ask layout run.now micro.now }
{
    match micro {
        Micro::Release { place, word } => {
            let free = word.bits();
            if !can_hold(layout, run.descriptor, free) {
                return None;
            }
            let held = next_word(free, run.descriptor + 1);
            if can_raise(layout, held) {
                Some((
                    Spot::Cell(*place),
                    Access::Exchanges(held, next_word(held, 0)),
                ))
            } else {
                None
            }
        }
        _ => None,
    }
}

pub fn load_cell_ask(run: &Run, micro: &Micro) -> Option<(Spot, Access)>
    ensures { result ≡ load_cell_ask run.now micro.now }
{
    match micro {
        Micro::LoadCell { place, log: _ } => Some((Spot::Cell(*place), Access::Loads)),
        _ => None,
    }
}

pub fn epoch_for_retire_ask(run: &Run, micro: &Micro) -> Option<(Spot, Access)>
    ensures { result ≡ epoch_for_retire_ask run.now micro.now }
{
    match micro {
        Micro::EpochForRetire { .. } => Some((Spot::Epoch, Access::Loads)),
        _ => None,
    }
}

pub fn clock_load_ask(run: &Run, micro: &Micro) -> Option<(Spot, Access)>
    ensures { result ≡ clock_load_ask run.now micro.now }
{
    match micro {
        Micro::ClockLoad => Some((Spot::Clock, Access::Loads)),
        _ => None,
    }
}

pub fn nested_load_ask(run: &Run, micro: &Micro) -> Option<(Spot, Access)>
    ensures { result ≡ nested_load_ask run.now micro.now }
{
    match micro {
        Micro::NestedLoad { place, log: _ } => Some((Spot::Cell(*place), Access::Loads)),
        _ => None,
    }
}

pub fn outcome_load_ask(run: &Run, micro: &Micro) -> Option<(Spot, Access)>
    ensures { result ≡ outcome_load_ask run.now micro.now }
{
    match micro {
        Micro::OutcomeLoad { place, log: _ } => Some((Spot::Cell(*place), Access::Loads)),
        _ => None,
    }
}
