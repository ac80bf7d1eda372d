//! The kinds of step that a runner may make next.
//!
//! `enabled` tries the events of each kind: `plain` has the kinds whose events carry no argument, `makes`
//! the private steps of a run, `arguments` the other kinds.
#![tactic(auto)]

mod arguments;
mod kinds;
mod makes;
mod plain;

pub use kinds::enabled;

// Passed on to the layers above, so that they needn't name these libraries themselves.
pub use runner_asks;
