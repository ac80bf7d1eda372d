//! Which word an event of guards meets, and how.
ghost use Rattle.std.specs.Prelude.{◌≡◌, ◌≤◌, ◌<◌, length};
ghost use Rattle.runner_steps.specs.table_words.specs.Limits.{IsWithinLimits};
ghost use Rattle.runner_steps.specs.runner_parts.specs.guard_core.specs.State.{word_of};
ghost use Rattle.runner_steps.specs.runner_parts.specs.Tests.{is_some_of};
ghost use Rattle.runner_steps.specs.Outside.{is_sure_of};
ghost use Rattle.runner_steps.specs.Guards.{is_numbered, guard_ask, load_guard_ask};

use crate::knowledge::is_walking;
use runner_steps::descriptor_count;
use runner_steps::runner_parts::epoch_core::Stage;
use runner_steps::runner_parts::{Guards, Part};
use runner_steps::table_words::{Access, Layout, Spot};

/// Whether the guard word names this descriptor.
pub fn names(guards: &Guards, descriptor: u32) -> bool
    ensures { result ≡ is_some_of guards.now.named descriptor }
{
    match guards.named {
        None => false,
        Some(named) => named == descriptor,
    }
}

/// Whether the runner is sure of this descriptor: its guard word names it, and it has seen it published since.
pub fn is_sure_of(guards: &Guards, descriptor: u32) -> bool
    ensures { result ≡ is_sure_of guards.now descriptor }
{
    guards.sure && names(guards, descriptor)
}

/// Whether this is nothing, or a descriptor that the table has.
fn is_numbered(layout: Layout, descriptor: Option<u32>) -> bool
    requires { IsWithinLimits layout }
    ensures { result ≡ is_numbered layout descriptor }
{
    match descriptor {
        None => true,
        Some(descriptor) => descriptor < descriptor_count(layout),
    }
}

/// The guard word that names this descriptor, or nothing.
fn word_of(descriptor: Option<u32>) -> u64
    ensures { result ≡ word_of descriptor }
{
    match descriptor {
        None => 0,
        Some(descriptor) => descriptor as u64 + 1,
    }
}

pub fn guard_ask(
    part: &Part,
    layout: Layout,
    runner: u32,
    descriptor: Option<u32>,
) -> Option<(Spot, Access)>
    requires { IsWithinLimits layout }
    ensures { result ≡ guard_ask layout runner descriptor part.now }
{
    let may_move = part.published.is_none() && is_numbered(layout, descriptor);
    if is_walking(part.stage, &part.run) && may_move {
        Some((Spot::Guard(runner), Access::Stores(word_of(descriptor))))
    } else {
        None
    }
}

pub fn load_guard_ask(part: &Part, layout: Layout, runner: u32) -> Option<(Spot, Access)>
    ensures { result ≡ load_guard_ask layout runner part.now }
{
    let is_next = runner as usize == part.guards.looked.len() && runner <= layout.runners;
    match part.stage {
        Stage::Idle if is_next => Some((Spot::Guard(runner), Access::Loads)),
        _ => None,
    }
}
