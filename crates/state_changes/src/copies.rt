//! Copies of a runner's part.
ghost use Rattle.std.specs.Prelude.{◌≡◌, IfOk};

use runner_steps::runner_parts::{
    Blocks, Descriptors, Finished, Guards, Nodes, Part, Reads, Records, Run,
};
use std::alloc::{AllocError, Global};

fn run_copy(alloc: Global, run: &Run) -> Result<Run, AllocError>
    ensures { IfOk result (λ x. x ≡ run.now) }
{
    Ok(Run {
        descriptor: run.descriptor,
        opened: Vec::from_slice(alloc, &run.opened)?,
        at: run.at,
        word: run.word,
        trail: Vec::from_slice(alloc, &run.trail)?,
        made: run.made,
        worn: run.worn,
        ended: run.ended,
        links: Vec::from_slice(alloc, &run.links)?,
        block: run.block,
        emptied: run.emptied,
        won: Vec::from_slice(alloc, &run.won)?,
    })
}

fn run_or_none_copy(alloc: Global, run: &Option<Run>) -> Result<Option<Run>, AllocError>
    ensures { IfOk result (λ x. x ≡ run.now) }
{
    match run {
        None => Ok(None),
        Some(run) => Ok(Some(run_copy(alloc, run)?)),
    }
}

fn nodes_copy(alloc: Global, nodes: &Nodes) -> Result<Nodes, AllocError>
    ensures { IfOk result (λ x. x ≡ nodes.now) }
{
    Ok(Nodes {
        free: Vec::from_slice(alloc, &nodes.free)?,
        hand: Vec::from_slice(alloc, &nodes.hand)?,
        tests: Vec::from_slice(alloc, &nodes.tests)?,
        limbo: Vec::from_slice(alloc, &nodes.limbo)?,
        worn: Vec::from_slice(alloc, &nodes.worn)?,
    })
}

fn descriptors_copy(alloc: Global, descriptors: &Descriptors) -> Result<Descriptors, AllocError>
    ensures { IfOk result (λ x. x ≡ descriptors.now) }
{
    Ok(Descriptors {
        free: Vec::from_slice(alloc, &descriptors.free)?,
        stored: Vec::from_slice(alloc, &descriptors.stored)?,
        limbo: Vec::from_slice(alloc, &descriptors.limbo)?,
    })
}

/// A copy of the lists of blocks.
pub fn blocks_copy(alloc: Global, blocks: &Blocks) -> Result<Blocks, AllocError>
    ensures { IfOk result (λ x. x ≡ blocks.now) }
{
    Ok(Blocks {
        free: Vec::from_slice(alloc, &blocks.free)?,
        limbo: Vec::from_slice(alloc, &blocks.limbo)?,
    })
}

fn guards_copy(alloc: Global, guards: &Guards) -> Result<Guards, AllocError>
    ensures { IfOk result (λ x. x ≡ guards.now) }
{
    Ok(Guards {
        named: guards.named,
        sure: guards.sure,
        looked: Vec::from_slice(alloc, &guards.looked)?,
    })
}

fn reads_copy(alloc: Global, reads: &Reads) -> Result<Reads, AllocError>
    ensures { IfOk result (λ x. x ≡ reads.now) }
{
    Ok(Reads {
        walk: Vec::from_slice(alloc, &reads.walk)?,
        cells: Vec::from_slice(alloc, &reads.cells)?,
        look: reads.look,
    })
}

fn finished_copy(alloc: Global, finished: &Finished) -> Result<Finished, AllocError>
    ensures { IfOk result (λ x. x ≡ finished.now) }
{
    Ok(Finished {
        descriptor: finished.descriptor,
        lock: finished.lock,
        word: finished.word,
        outcome: finished.outcome,
        trail: Vec::from_slice(alloc, &finished.trail)?,
        late: finished.late,
    })
}

fn all_finished_copy(alloc: Global, finished: &[Finished]) -> Result<Vec<Finished>, AllocError>
    ensures { IfOk result (λ v. v.items ≡ finished.now) }
{
    let mut copies = Vec::new(alloc);
    for section in finished {
        copies.push(finished_copy(alloc, section)?)?;
    }
    Ok(copies)
}

fn records_copy(alloc: Global, records: &Records) -> Result<Records, AllocError>
    ensures { IfOk result (λ x. x ≡ records.now) }
{
    Ok(Records {
        known: Vec::from_slice(alloc, &records.known)?,
        finished: all_finished_copy(alloc, &records.finished)?,
        events: records.events,
        won: records.won,
        epoch_seen: records.epoch_seen,
        crossed: records.crossed,
        crosses: records.crosses,
        left: Vec::from_slice(alloc, &records.left)?,
        splits: records.splits,
        joined: Vec::from_slice(alloc, &records.joined)?,
        only_loads: records.only_loads,
        gave_above: records.gave_above,
    })
}

/// A copy of a part.
pub fn part_copy(alloc: Global, part: &Part) -> Result<Part, AllocError>
    ensures { IfOk result (λ x. x ≡ part.now) }
{
    Ok(Part {
        stage: part.stage,
        run: run_or_none_copy(alloc, &part.run)?,
        published: part.published,
        nodes: nodes_copy(alloc, &part.nodes)?,
        descriptors: descriptors_copy(alloc, &part.descriptors)?,
        blocks: blocks_copy(alloc, &part.blocks)?,
        guards: guards_copy(alloc, &part.guards)?,
        reads: reads_copy(alloc, &part.reads)?,
        board: Vec::from_slice(alloc, &part.board)?,
        records: records_copy(alloc, &part.records)?,
        gone: part.gone,
    })
}
