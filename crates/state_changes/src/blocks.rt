//! What becomes of a runner's blocks at an event, and of what it knows of the board.
ghost use Rattle.std.specs.Prelude.{◌≡◌, ◌<◌, ◌≤◌, [], ◌∷◌, ◌++◌, length, IfOk, OnOk, if◌then◌else◌};
ghost use Rattle.runner_steps.specs.table_words.specs.Limits.{IsWithinLimits};
ghost use Rattle.runner_steps.specs.body_terms.specs.Line.{is_end};
ghost use Rattle.runner_steps.specs.Sections.{next_of};
ghost use Rattle.runner_steps.specs.AfterInRun.{ended_more};
ghost use Rattle.runner_steps.specs.Blocks.{blocks_outside, blocks_in_line, blocks_in_run, blocks_after};
ghost use Rattle.runner_steps.specs.Board.{board_after};
ghost use Rattle.runner_steps.specs.Guards.{is_last_guard};
ghost use Rattle.runner_steps.specs.runner_parts.specs.Lists.{blocks_freed};
ghost use Rattle.runner_steps.specs.runner_parts.specs.guard_core.specs.Moves.{is_unnamed};

use crate::copies::blocks_copy;
use runner_asks::{is_end, is_open_run, needs_link, next_micro, next_of, thunk_of};
use runner_steps::blocks_from;
use runner_steps::body_terms::Micro;
use runner_steps::runner_parts::structure_laws::Structure;
use runner_steps::runner_parts::{
    Blocks, BoardRead, EventKind, Part, Run, board_read, board_tried,
};
use runner_steps::table_words::Layout;
use std::alloc::{AllocError, Global};

/// One more guard word was read: after the last one of a sweep, what lies under a descriptor that none of them names is
/// free.
fn looked(
    blocks: &mut Blocks,
    alloc: Global,
    part: &Part,
    layout: Layout,
    found: u64,
) -> Result<(), AllocError>
    ensures { OnOk result (blocks.new ≡ (if is_last_guard layout part.now.guards.looked
        then blocks_freed (is_unnamed (part.now.guards.looked ++ found ∷ [])) blocks.old else blocks.old)) }
{
    if part.guards.looked.len() == layout.runners as usize {
        let mut words = Vec::from_slice(alloc, &part.guards.looked)?;
        words.push(found)?;
        blocks.sweep(alloc, &words)
    } else {
        Ok(())
    }
}

/// Outside a run: where the runner becomes sure of a descriptor, what lies in limbo under it is free; and so is, after
/// a sweep, what lies under a descriptor that none of the words names which the sweep read.
fn blocks_outside<S: Structure>(
    alloc: Global,
    part: &Part,
    structure: &S,
    layout: Layout,
    kind: &EventKind,
    found: u64,
) -> Result<Blocks, AllocError>
    ensures { IfOk result (λ b. b ≡ blocks_outside (S.meaning structure.now) layout kind.now part.now found) }
{
    let mut blocks = blocks_copy(alloc, &part.blocks)?;
    match kind {
        EventKind::LoadCell(Some(place)) => {
            let lock = structure.is_lock(*place);
            blocks.see_named(alloc, &part.guards, lock, found)?;
        }
        EventKind::Hold { thunk, descriptor } => {
            if found == thunk.word.bits() {
                blocks.give_back(alloc, *descriptor)?;
            }
        }
        EventKind::LoadGuard(_) => looked(&mut blocks, alloc, part, layout, found)?,
        _ => {}
    }
    Ok(blocks)
}

/// Whether the run is at its end once one more lock is released.
fn ends<S: Structure>(run: &Run, structure: &S) -> bool
    requires opened { 12 ≤ length run.now.opened }
    requires ended { run.now.ended < 440 }
    ensures { result ≡ is_end (next_of (S.meaning structure.now) (ended_more run.now)) }
{
    let thunk = thunk_of(&run.opened);
    let body = structure.body(&thunk);
    is_end(&next_micro(&body, run.at, run.ended + 1, thunk.lock, thunk.word))
}

/// In a run that stands before this step: a block leaves the free list when it comes into the hand, and comes back
/// where its link was lost; at the run's end those that it linked go into limbo under its descriptor.
fn blocks_in_line<S: Structure>(
    blocks: &mut Blocks,
    alloc: Global,
    run: &Run,
    structure: &S,
    layout: Layout,
    kind: &EventKind,
    micro: &Micro,
    found: u64,
) -> Result<(), AllocError>
    requires limits { IsWithinLimits layout }
    requires opened { 12 ≤ length run.now.opened }
    requires ended { run.now.ended < 440 }
    ensures { OnOk result (blocks.new ≡ blocks_in_line (S.meaning structure.now) layout kind.now blocks.old run.now
        micro.now found) }
{
    match kind {
        EventKind::PrivateStore {
            slot,
            word: _,
            number: _,
        } => {
            if needs_link(run, micro) && run.block.is_none() {
                let block = (*slot).saturating_sub(blocks_from(structure, layout));
                return blocks.take(alloc, block);
            }
        }
        EventKind::LinkCommit(block) => {
            if found != 0 {
                return blocks.put_back(*block);
            }
        }
        EventKind::Release => {
            if ends(run, structure) {
                return blocks.retire(alloc, &run.won, run.descriptor);
            }
        }
        _ => {}
    }
    Ok(())
}

/// In a run.
fn blocks_in_run<S: Structure>(
    alloc: Global,
    part: &Part,
    run: &Run,
    structure: &S,
    layout: Layout,
    kind: &EventKind,
    found: u64,
) -> Result<Blocks, AllocError>
    requires { IsWithinLimits layout }
    ensures { IfOk result (λ b. b ≡ blocks_in_run (S.meaning structure.now) layout kind.now part.now.blocks run.now
        found) }
{
    let mut blocks = blocks_copy(alloc, &part.blocks)?;
    if is_open_run(run) {
        let micro = next_of(run, structure);
        blocks_in_line(
            &mut blocks,
            alloc,
            run,
            structure,
            layout,
            kind,
            &micro,
            found,
        )?;
    }
    Ok(blocks)
}

/// The blocks after an event, which found this word.
pub fn blocks_after<S: Structure>(
    alloc: Global,
    part: &Part,
    structure: &S,
    layout: Layout,
    kind: &EventKind,
    found: u64,
) -> Result<Blocks, AllocError>
    requires { IsWithinLimits layout }
    ensures { IfOk result (λ b.
        b ≡ blocks_after (S.meaning structure.now) layout kind.now part.now part.now.run found) }
{
    match &part.run {
        None => blocks_outside(alloc, part, structure, layout, kind, found),
        Some(run) => blocks_in_run(alloc, part, run, structure, layout, kind, found),
    }
}

/// What the runner knows of the board's words: it begins anew when the runner is idle.
pub fn board_after(
    alloc: Global,
    board: &[BoardRead],
    kind: &EventKind,
    found: u64,
) -> Result<Vec<BoardRead>, AllocError>
    ensures { IfOk result (λ v. v.items ≡ board_after kind.now board.now found) }
{
    let mut reads = Vec::from_slice(alloc, board)?;
    match kind {
        EventKind::Idle => reads = Vec::new(alloc),
        EventKind::BoardLoad(word) => board_read(&mut reads, *word, found)?,
        EventKind::BoardTake(word, link) => board_tried(&mut reads, *word, found == *link),
        EventKind::BoardGive(word, _) => board_tried(&mut reads, *word, found == 0),
        _ => {}
    }
    Ok(reads)
}
