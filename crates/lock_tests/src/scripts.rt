//! Scripts for two workers.

use machine_states::body_terms::StepKind;
use settled_tables::settling::runner_gate::{Gates, Pause, Scripted, ScriptedGates};
use std::alloc::{AllocError, Global};

/// The gates of both workers, which follow this script: each line has who waits at which ask, and for whose ask.
pub fn scripted(
    alloc: Global,
    lines: &[(u32, StepKind, u32, StepKind)],
) -> Result<(Scripted, Scripted), AllocError> {
    let mut pauses = Vec::new(alloc);
    for &(runner, at, until_runner, until) in lines {
        pauses.push(Pause {
            runner,
            at,
            until_runner,
            until,
        })?;
    }
    let mut gates = ScriptedGates::new(alloc, pauses)?;
    let first = gates.gate(0, None);
    let second = gates.gate(1, None);
    Ok((first, second))
}
