//! The machine's sections and runs as the component of agreement sees them: each step of the machine is
//! that component's events of its kind.
//!
//! `specs/Joined` says when a state of the component belongs to one of the machine, `specs/Supplied` what a
//! step needs of the other components, `specs/Chunks` which events it is, and `specs/Goes` that they lead
//! to a state that belongs to the machine's. `laws` has the law on a contract.
#![tactic(auto)]

mod laws;

pub use laws::{first_states_are_joined, steps_are_events};
