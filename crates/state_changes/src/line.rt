//! What a step of a run's line makes of the part.
ghost use Rattle.std.specs.Prelude.{◌≡◌, ◌<◌, ◌+◌, ◌^◌, length, OnOk};
ghost use Rattle.runner_steps.specs.table_words.specs.Limits.{IsWithinLimits};
ghost use Rattle.state_changes.specs.Parts.{slot_decided, section_over};
ghost use Rattle.runner_steps.specs.AfterInRun.{with_run, opened_more, cell_loaded, cell_exchanged, number_loaded, word_committed, fill_loaded, filled, block_emptied, private_stored, link_committed, make_committed, retire_committed, stamp_agreed, clock_raised, reply_agreed, done_set, run_over, released_more, lock_released};

use crate::inside::{agrees, finished_of, goes_on};
use runner_asks::{LAST_CLOCK, is_end, needs_link, next_of, thunk_of};
use runner_steps::body_terms::{Micro, Place, Word};
use runner_steps::runner_parts::structure_laws::Structure;
use runner_steps::runner_parts::{Part, Run};
use runner_steps::table_words::{BLOCK_WORDS, Layout};
use runner_steps::{agreed_on, blocks_from};
use std::alloc::{AllocError, Global};

/// The opening: one more word.
pub fn opened_more(part: &mut Part, mut run: Run, found: u64) -> Result<(), AllocError>
    ensures { OnOk result (part.new ≡ opened_more part.old run found) }
{
    run.opened.push(found)?;
    part.run = Some(run);
    Ok(())
}

/// A cell was loaded, to be committed.
pub fn cell_loaded<S: Structure>(
    part: &mut Part,
    mut run: Run,
    structure: &S,
    layout: Layout,
    place: Place,
    found: u64,
) -> Result<(), AllocError>
    requires limits { IsWithinLimits layout }
    requires opened { length run.opened ≡ 13 }
    requires at { run.at < 440 }
    ensures { OnOk result (part.new ≡ cell_loaded (S.meaning structure.now) layout place part.old run found) }
{
    part.reads.cell_read(place, found)?;
    goes_on(&mut run, structure, layout, found);
    part.run = Some(run);
    Ok(())
}

/// A cell was exchanged; whether it changed plays no part.
pub fn cell_exchanged<S: Structure>(
    part: &mut Part,
    mut run: Run,
    structure: &S,
    layout: Layout,
    place: Place,
    found: u64,
) -> Result<(), AllocError>
    requires limits { IsWithinLimits layout }
    requires opened { length run.opened ≡ 13 }
    requires at { run.at < 440 }
    ensures { OnOk result (part.new ≡ cell_exchanged (S.meaning structure.now) layout place part.old run found) }
{
    part.reads.cell_read(place, found)?;
    let word = run.word;
    goes_on(&mut run, structure, layout, word);
    part.run = Some(run);
    Ok(())
}

/// A number was loaded from a word that is no cell.
pub fn number_loaded<S: Structure>(
    part: &mut Part,
    mut run: Run,
    structure: &S,
    layout: Layout,
    found: u64,
)
    requires limits { IsWithinLimits layout }
    requires opened { length run.opened ≡ 13 }
    requires at { run.at < 440 }
    ensures { part.new ≡ number_loaded (S.meaning structure.now) layout part.old run found }
{
    goes_on(&mut run, structure, layout, found);
    part.run = Some(run);
}

/// The word is agreed on that stood in the log, or else the proposal.
pub fn word_committed<S: Structure>(
    part: &mut Part,
    mut run: Run,
    structure: &S,
    layout: Layout,
    found: u64,
) -> Result<(), AllocError>
    requires limits { IsWithinLimits layout }
    requires opened { length run.opened ≡ 13 }
    requires at { run.at < 440 }
    ensures { OnOk result (part.new ≡ word_committed (S.meaning structure.now) layout part.old run found) }
{
    let agreed = agreed_on(found, run.word);
    agrees(&mut run, structure, layout, agreed)?;
    part.run = Some(run);
    Ok(())
}

/// The first private load of a Make takes the slot into the hand.
pub fn fill_loaded<S: Structure>(
    part: &mut Part,
    alloc: Global,
    mut run: Run,
    structure: &S,
    layout: Layout,
    slot: u32,
    found: u64,
) -> Result<(), AllocError>
    requires limits { IsWithinLimits layout }
    requires opened { length run.opened ≡ 13 }
    requires at { run.at < 440 }
    ensures { OnOk result (part.new ≡ fill_loaded (S.meaning structure.now) layout slot part.old run run.made found) }
{
    match run.made {
        None => {
            part.nodes.take(alloc, slot)?;
            run.made = Some(slot);
            run.worn = false;
            goes_on(&mut run, structure, layout, found);
        }
        Some(_) => goes_on(&mut run, structure, layout, found),
    }
    part.run = Some(run);
    Ok(())
}

/// A word of a Make's slot was stored.
fn filled<S: Structure>(run: &mut Run, structure: &S, layout: Layout, number: u64)
    requires limits { IsWithinLimits layout }
    requires opened { length run.old.opened ≡ 13 }
    requires at { run.old.at < 440 }
    ensures { run.new ≡ filled (S.meaning structure.now) layout number run.old }
{
    run.worn = run.worn || Word::from_bits(number).version() == layout.version_max;
    let word = run.word;
    goes_on(run, structure, layout, word);
}

/// One more word of the block is 0, which is in the hand from the first one on.
fn block_emptied(run: &mut Run, block: u32)
    ensures { run.new ≡ block_emptied block run.old }
{
    run.block = Some(block);
    if (run.emptied as usize) < BLOCK_WORDS {
        run.emptied += 1;
    }
}

/// A private store: into a block where the run is to link one, and otherwise that of a Make.
pub fn private_stored<S: Structure>(
    part: &mut Part,
    mut run: Run,
    structure: &S,
    layout: Layout,
    slot: u32,
    number: u64,
    micro: &Micro,
)
    requires limits { IsWithinLimits layout }
    requires opened { length run.opened ≡ 13 }
    requires at { run.at < 440 }
    ensures { part.new ≡ private_stored (S.meaning structure.now) layout slot number part.old run micro.now }
{
    if needs_link(&run, micro) {
        block_emptied(
            &mut run,
            slot.saturating_sub(blocks_from(structure, layout)),
        );
    } else {
        filled(&mut run, structure, layout, number);
    }
    part.run = Some(run);
}

/// The block is agreed on that stood in the link, or else the own one.
pub fn link_committed(
    part: &mut Part,
    mut run: Run,
    block: u32,
    found: u64,
) -> Result<(), AllocError>
    ensures { OnOk result (part.new ≡ link_committed block part.old run found) }
{
    let link = agreed_on(found, block as u64 + 1);
    run.links
        .push(Word::from_bits(link.saturating_sub(1)).value())?;
    if found == 0 {
        run.won.push(block)?;
    }
    run.block = None;
    run.emptied = 0;
    part.run = Some(run);
    Ok(())
}

/// Where this exchange won, the slot is live; otherwise it comes back.
pub fn make_committed<S: Structure>(
    part: &mut Part,
    alloc: Global,
    mut run: Run,
    structure: &S,
    layout: Layout,
    found: u64,
) -> Result<(), AllocError>
    requires limits { IsWithinLimits layout }
    requires opened { length run.opened ≡ 13 }
    requires at { run.at < 440 }
    ensures { OnOk result (part.new ≡ make_committed (S.meaning structure.now) layout (with_run part.old run) run
        run.made found) }
{
    if let Some(slot) = run.made {
        slot_decided(part, alloc, slot, run.worn, found)?;
        run.made = None;
        run.worn = false;
        agrees(
            &mut run,
            structure,
            layout,
            agreed_on(found, slot as u64 + 1),
        )?;
    }
    part.run = Some(run);
    Ok(())
}

fn slot_decided(
    part: &mut Part,
    alloc: Global,
    slot: u32,
    worn: bool,
    found: u64,
) -> Result<(), AllocError>
    ensures { OnOk result (part.new ≡ slot_decided part.old slot worn found) }
{
    if found == 0 {
        part.nodes.made(alloc, slot)
    } else {
        part.nodes.slot_back(alloc, slot, worn)
    }
}

/// Only the exchange that won retires.
pub fn retire_committed<S: Structure>(
    part: &mut Part,
    mut run: Run,
    structure: &S,
    layout: Layout,
    slot: u32,
    found: u64,
) -> Result<(), AllocError>
    requires limits { IsWithinLimits layout }
    requires opened { length run.opened ≡ 13 }
    requires at { run.at < 440 }
    ensures { OnOk result (part.new ≡ retire_committed (S.meaning structure.now) layout slot part.old run found) }
{
    if found == 0 {
        part.nodes.retire(slot, run.word)?;
    }
    agrees(
        &mut run,
        structure,
        layout,
        agreed_on(found, slot as u64 + 1),
    )?;
    part.run = Some(run);
    Ok(())
}

/// The agreed stamp is what then stands there.
pub fn stamp_agreed<S: Structure>(
    part: &mut Part,
    mut run: Run,
    structure: &S,
    layout: Layout,
    found: u64,
) -> Result<(), AllocError>
    requires limits { IsWithinLimits layout }
    requires opened { length run.opened ≡ 13 }
    requires at { run.at < 440 }
    ensures { OnOk result (part.new ≡ stamp_agreed (S.meaning structure.now) layout (with_run part.old run) run found) }
{
    if run.word < LAST_CLOCK {
        let stamp = agreed_on(found, 2 * (run.word + 1));
        part.records
            .learn(thunk_of(&run.opened).request, false, stamp)?;
        goes_on(&mut run, structure, layout, stamp);
    }
    part.run = Some(run);
    Ok(())
}

pub fn clock_raised<S: Structure>(part: &mut Part, mut run: Run, structure: &S, layout: Layout)
    requires limits { IsWithinLimits layout }
    requires opened { length run.opened ≡ 13 }
    requires at { run.at < 440 }
    ensures { part.new ≡ clock_raised (S.meaning structure.now) layout part.old run }
{
    let word = run.word;
    goes_on(&mut run, structure, layout, word);
    part.run = Some(run);
}

pub fn reply_agreed<S: Structure>(
    part: &mut Part,
    mut run: Run,
    structure: &S,
    layout: Layout,
    reply: u64,
    found: u64,
) -> Result<(), AllocError>
    requires limits { IsWithinLimits layout }
    requires opened { length run.opened ≡ 13 }
    requires at { run.at < 440 }
    ensures { OnOk result (part.new ≡ reply_agreed (S.meaning structure.now) layout reply part.old run found) }
{
    part.records.learn(thunk_of(&run.opened).request, true, agreed_on(found, reply))?;
    let word = run.word;
    goes_on(&mut run, structure, layout, word);
    part.run = Some(run);
    Ok(())
}

pub fn done_set(part: &mut Part, mut run: Run)
    requires { run.ended < 440 }
    ensures { part.new ≡ done_set part.old run }
{
    run.ended += 1;
    part.run = Some(run);
}

/// Where this is the own published section, it is published no more, and its descriptor is retired.
fn section_over(part: &mut Part, descriptor: u32) -> Result<(), AllocError>
    ensures { OnOk result (part.new ≡ section_over part.old descriptor) }
{
    let Some(section) = part.published else {
        return Ok(());
    };
    if section.descriptor == descriptor {
        part.published = None;
        part.descriptors.retire(descriptor)
    } else {
        Ok(())
    }
}

/// The run is over: its trail is kept, and the own section is retired.
fn run_over<S: Structure>(
    part: &mut Part,
    alloc: Global,
    run: Run,
    structure: &S,
    layout: Layout,
) -> Result<(), AllocError>
    requires limits { IsWithinLimits layout }
    requires opened { length run.opened ≡ 13 }
    ensures { OnOk result (part.new ≡ run_over (S.meaning structure.now) layout part.old run) }
{
    let finished = finished_of(&run, alloc, structure, layout)?;
    part.records.finished.push(finished)?;
    part.run = None;
    section_over(part, run.descriptor)
}

/// The run goes on to the next release, and is over after the last.
pub fn lock_released<S: Structure>(
    part: &mut Part,
    alloc: Global,
    mut run: Run,
    structure: &S,
    layout: Layout,
    place: Place,
    found: u64,
) -> Result<(), AllocError>
    requires limits { IsWithinLimits layout }
    requires opened { length run.opened ≡ 13 }
    requires ended { run.ended < 440 }
    ensures { OnOk result (part.new ≡ lock_released (S.meaning structure.now) layout place part.old run found) }
{
    part.reads.cell_read(place, found)?;
    run.ended += 1;
    if is_end(&next_of(&run, structure)) {
        run_over(part, alloc, run, structure, layout)
    } else {
        part.run = Some(run);
        Ok(())
    }
}
