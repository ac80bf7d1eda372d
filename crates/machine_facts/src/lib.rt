//! Facts of every state that the machine reaches, and of every step that it makes.
//!
//! `specs/States` is what is known of a state, `specs/Passed` what is known of a step, `specs/Once`
//! says of each section that its effects come once, for good, `specs/Told` what a run has told its
//! runner. `laws` and `told` have each on a contract.
#![tactic(auto)]

mod laws;
mod told;

pub use laws::{got_locks_are_held, reached_states_show_facts, seen_locks_stand, steps_show_facts};
pub use told::runs_are_told;
