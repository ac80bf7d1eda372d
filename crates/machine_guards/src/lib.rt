//! The machine's guard words as the component of guards sees them: each step of the machine is at most one event of
//! that component, and what guards keep holds of every state with its other components.
//!
//! `specs/State` says which state of guards belongs to the machine's, `specs/Stands` what holds of it, `specs/Supplied`
//! what a step needs of the other components, `specs/Chunks` which event it is, `specs/Goes` that the event leads to
//! what belongs to the machine's state after the step, and `specs/Sweeps` what follows for callers. `laws` has each law
//! on a contract.
#![tactic(auto)]

mod laws;

pub use laws::{
    first_guards_stand, guards_stand_by_places, steps_are_events_of_guards,
    sure_descriptors_are_kept, sweeps_free_exactly_what_no_guard_names,
};
