//! How a run came through a step of its body.

use idem_cell::body_terms::Outcome;

/// How a run came through a step of its body.
#[derive(Clone, Copy, Debug, PartialEq, Eq)]
pub enum Passed {
    /// It goes on behind the step.
    On,
    /// It leaves here with this outcome.
    Left(Outcome),
    /// The gate halted the runner.
    Halted,
}

/// Where a run left its body.
#[derive(Clone, Copy, Debug, PartialEq, Eq)]
pub enum Walked {
    /// It is to end with this outcome. The Takes that it passed are among so many of the body's first steps.
    Over(usize, Outcome),
    /// The gate halted the runner.
    Stopped,
}
