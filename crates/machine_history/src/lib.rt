//! The history, joined to the joint states of agreement and of epochs and slots: whatever steps come, the
//! requests that have a stamp are one legal history.
//!
//! The definitions stand in specs: `Tied` has how the history's state is tied to the joint states, `Steps`
//! the steps with the history's events, and `Laws` what holds of them. `laws` has each law on a contract.
#![tactic(auto)]

mod laws;
mod memory;

pub use laws::{joined_histories_stand, steps_keep_the_history};
pub use memory::{looks_answer_the_map, stamps_answer_the_map, steps_keep_the_memory};
