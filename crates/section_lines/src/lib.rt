//! The line of atomic steps of a section's body: what the core relies on in it.
//!
//! `specs/Line` says it, `specs/Runs` says what a run of a line in one go has to do with a shared log,
//! `specs/Rests` where a run rests. Each law stands on the
//! contract of a function.
#![tactic(auto)]

mod laws;

pub use laws::{
    bodies_have_such_lines, leaving_runs_make_fewer_steps, runs_agree_with_logs, runs_rest_at_steps,
};

// Passed on to the layers above, so that they needn't name these libraries themselves.
pub use structure_laws;
