//! Steps that are counted apart, and added up behind.
ghost use Rattle.std.specs.Prelude.{◌≡◌, ◌+◌, ◌≤◌, min};

use idem_cell::body_terms::Steps;

/// Adds up steps that were counted apart. A count that no other part sees stays in a register of the processor, so the
/// loops of a run count their steps so: between two locked operations, a write to memory waits for them.
#[inline(always)]
pub fn add_up<L>(steps: &mut Steps<L>, made: &Steps<L>)
    ensures added { steps.new.count ≡ min (steps.old.count + made.now.count) u64.MAX }
    ensures fits { steps.old.count ≤ u64.MAX }
{
    steps.count = steps.count.saturating_add(made.count);
}
