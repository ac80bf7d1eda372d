//! What the runners are at in the first state.
ghost use Rattle.std.specs.Prelude.{◌≡◌, ◌<◌, ◌+◌, ◌^◌, ◌∷◌, IfOk};
ghost use Rattle.machine_states.specs.table_words.specs.Limits.{IsWithinLimits};
ghost use Rattle.machine_states.specs.First.{falling, first_part, keeper_part, worker_part, workers};

use machine_states::epoch_core::Stage;
use machine_states::runner_parts::{Blocks, Descriptors, Guards, Nodes, Part, Reads, Records};
use machine_states::structure_laws::Structure;
use machine_states::table_words::Layout;
use std::alloc::{AllocError, Global};

/// As many numbers as said from this one on, in falling order.
fn falling(alloc: Global, from: u32, count: u32) -> Result<Vec<u32>, AllocError>
    requires { from + count < 2 ^ 32 }
    ensures { IfOk result (λ v. v.items ≡ falling from count) }
{
    let mut numbers = Vec::new(alloc);
    for below in 0..count {
        numbers.push(from + (count - 1 - below))?;
    }
    Ok(numbers)
}

/// A runner that has done nothing, with these free node slots, descriptors and blocks.
fn first_part(alloc: Global, nodes: Vec<u32>, descriptors: Vec<u32>, blocks: Vec<u32>) -> Part
    ensures { result ≡ first_part nodes.items descriptors.items blocks.items }
{
    Part {
        stage: Stage::Idle,
        run: None,
        published: None,
        nodes: Nodes {
            free: nodes,
            hand: Vec::new(alloc),
            tests: Vec::new(alloc),
            limbo: Vec::new(alloc),
            worn: Vec::new(alloc),
        },
        descriptors: Descriptors {
            free: descriptors,
            stored: Vec::new(alloc),
            limbo: Vec::new(alloc),
        },
        blocks: Blocks {
            free: blocks,
            limbo: Vec::new(alloc),
        },
        guards: Guards {
            named: None,
            sure: false,
            looked: Vec::new(alloc),
        },
        reads: Reads {
            walk: Vec::new(alloc),
            cells: Vec::new(alloc),
            look: None,
        },
        board: Vec::new(alloc),
        records: Records {
            known: Vec::new(alloc),
            finished: Vec::new(alloc),
            events: 0,
            won: 0,
            epoch_seen: 0,
            crossed: false,
            crosses: false,
            left: Vec::new(alloc),
            splits: 0,
            joined: Vec::new(alloc),
            only_loads: false,
            gave_above: true,
        },
        gone: false,
    }
}

/// The keeper's part.
fn keeper_part<S: Structure>(
    alloc: Global,
    structure: &S,
    layout: Layout,
) -> Result<Part, AllocError>
    requires { IsWithinLimits layout }
    ensures { IfOk result (λ p. p ≡ keeper_part (S.meaning structure.now) layout) }
{
    let workers = layout.runners;
    let nodes = falling(
        alloc,
        structure.fixed_slots() + layout.nodes * workers,
        2 * workers + 2,
    )?;
    let descriptors = falling(alloc, layout.sections * workers, workers)?;
    let before = layout.worker_blocks() * workers;
    let blocks = falling(alloc, before, layout.keeper_blocks())?;
    Ok(first_part(alloc, nodes, descriptors, blocks))
}

/// The part of this worker.
#[tactic(auto, using(machine_states::proofs::Firsts::nodes_below, machine_states::proofs::Firsts::sections_below, machine_states::proofs::Firsts::blocks_below))]
pub fn worker_part<S: Structure>(
    alloc: Global,
    structure: &S,
    layout: Layout,
    worker: u32,
) -> Result<Part, AllocError>
    requires limits { IsWithinLimits layout }
    requires worker { worker < layout.runners }
    ensures { IfOk result (λ p. p ≡ worker_part (S.meaning structure.now) layout worker) }
{
    let nodes = falling(
        alloc,
        structure.fixed_slots() + layout.nodes * worker,
        layout.nodes,
    )?;
    let descriptors = falling(alloc, layout.sections * worker, layout.sections)?;
    let own = layout.worker_blocks();
    let blocks = falling(alloc, own * worker, own)?;
    Ok(first_part(alloc, nodes, descriptors, blocks))
}

/// The parts of all runners, the keeper's first.
pub fn first_parts<S: Structure>(
    alloc: Global,
    structure: &S,
    layout: Layout,
) -> Result<Vec<Part>, AllocError>
    requires { IsWithinLimits layout }
    ensures { IfOk result (λ v. v.items ≡ keeper_part (S.meaning structure.now) layout
        ∷ workers (S.meaning structure.now) layout layout.runners) }
{
    let mut parts = Vec::new(alloc);
    parts.push(keeper_part(alloc, structure, layout)?)?;
    for worker in 0..layout.runners {
        parts.push(worker_part(alloc, structure, layout, worker)?)?;
    }
    Ok(parts)
}
