//! The own slots that an attempt needs.
ghost use Rattle.std.specs.Prelude.{◌≡◌, IfOk, IfErr};
ghost use Rattle.caller_facts.specs.epoch_slots.specs.Reserves.{counts_of};
ghost use Rattle.attempts.specs.Course.{HasReserve};
ghost use Rattle.attempts.specs.Attempts.{IsFew};

use caller_facts::lock_walks::epoch_slots::{Kind, Short, reserve};
use machine_states::structure_laws::Structure;
use machine_states::table_words::ATTEMPT_BLOCKS;
use version_words::Runner;

/// The runner, if two node slots, one descriptor and the blocks for two logs are free: for that of its own section, and
/// that of one that it helps. Else the runner and the counts of the kind that lacks; node slots are asked for first, and
/// blocks last. No step is made, and nothing changes.
///
/// Blocks are looked at before they are asked for, so that an attempt makes no call for them: few lack any.
pub fn reserve_slots<S: Structure>(runner: Runner<S>) -> Result<Runner<S>, (Runner<S>, Short)>
    ensures same { IfOk result (λ x. x ≡ runner) }
    ensures enough { IfOk result (λ x. HasReserve runner) }
    ensures err { IfErr result (λ e. e.0 ≡ runner) }
    ensures few { IfErr result (λ e. IsFew runner e.1.kind) }
    ensures counts { IfErr result (λ e. e.1 ≡ counts_of runner e.1.kind) }
{
    let runner = reserve(runner, Kind::Node, 2)?;
    let runner = reserve(runner, Kind::Descriptor, 1)?;
    if runner.free_blocks().len() >= ATTEMPT_BLOCKS {
        return Ok(runner);
    }
    reserve(runner, Kind::Block, ATTEMPT_BLOCKS as u32)
}
