//! The private steps of a run: of a Make, and into a block that it is to link.
ghost use Rattle.std.specs.Prelude.{◌≡◌};
ghost use Rattle.machine_states.specs.table_words.specs.Limits.{IsWithinLimits};
ghost use Rattle.runner_steps.specs.InRun.{make_slot};
ghost use Rattle.enabled_kinds.specs.Tried.{made_load, store_at, emptied_at, made_store};

use machine_states::body_terms::{Micro, Word};
use machine_states::runner_parts::{EventKind, Part, Run};
use machine_states::structure_laws::Structure;
use machine_states::table_words::Layout;
use runner_asks::{is_open_run, last_of, needs_link, next_of, source_value};
use runner_steps::{block_count, blocks_from};

/// What is in the hand already, or else the last that is free.
fn make_slot(hand: Option<u32>, free: &[u32]) -> Option<u32>
    ensures { result ≡ make_slot hand free.now }
{
    match hand {
        None => last_of(free),
        Some(slot) => Some(slot),
    }
}

/// The private load that a run makes next.
pub fn made_load<S: Structure>(part: &Part, structure: &S) -> Option<EventKind>
    ensures { result ≡ made_load (S.meaning structure.now) part.now.nodes.free part.now.run }
{
    let Some(run) = &part.run else {
        return None;
    };
    if !is_open_run(run) {
        return None;
    }
    match (
        make_slot(run.made, &part.nodes.free),
        next_of(run, structure),
    ) {
        (Some(slot), Micro::PrivateLoad { cell, log: _ }) => {
            Some(EventKind::PrivateLoad { slot, word: cell })
        }
        _ => None,
    }
}

/// The private store of the next word into the cell at which a Make is.
fn store_at(run: &Run, layout: Layout, micro: Micro) -> Option<EventKind>
    requires { IsWithinLimits layout }
    ensures { result ≡ store_at layout run.now run.now.made micro }
{
    match (run.made, micro) {
        (
            Some(slot),
            Micro::PrivateStore {
                cell,
                log: _,
                value,
            },
        ) => {
            let word = Word::from_bits(run.word);
            if word.version() < layout.version_max {
                Some(EventKind::PrivateStore {
                    slot,
                    word: cell,
                    number: word.next(source_value(&run.trail, value)).bits(),
                })
            } else {
                None
            }
        }
        _ => None,
    }
}

/// The store into the next word of the block that a run empties to link it.
#[tactic(auto, using(crate::proofs::Bounds::few_blocks))]
fn emptied_at<S: Structure>(
    run: &Run,
    block: Option<u32>,
    structure: &S,
    layout: Layout,
) -> Option<EventKind>
    requires { IsWithinLimits layout }
    ensures { result ≡ emptied_at (S.meaning structure.now) layout run.now block }
{
    match block {
        Some(block) if block < block_count(layout) => Some(EventKind::PrivateStore {
            slot: blocks_from(structure, layout) + block,
            word: run.emptied,
            number: 0,
        }),
        _ => None,
    }
}

/// The private store that a run makes next.
pub fn made_store<S: Structure>(part: &Part, structure: &S, layout: Layout) -> Option<EventKind>
    requires { IsWithinLimits layout }
    ensures { result ≡ made_store (S.meaning structure.now) layout part.now.blocks.free part.now.run }
{
    let Some(run) = &part.run else {
        return None;
    };
    if !is_open_run(run) {
        return None;
    }
    let micro = next_of(run, structure);
    if needs_link(run, &micro) {
        emptied_at(
            run,
            make_slot(run.block, &part.blocks.free),
            structure,
            layout,
        )
    } else {
        store_at(run, layout, micro)
    }
}
