//! The next step of each run is enabled, in every state that the machine reaches, and the numbers that it
//! asks for fit their words.
//!
//! The definitions stand in specs: `Steps` is which event a run makes next, `Rooms` and `Numbers` what
//! fits, `Enabled` that the next event is enabled, and `Stages` what a caller may do in a run and what its
//! part is then.
#![tactic(auto)]

mod laws;

pub use laws::{
    clocks_are_small, looks_are_small, next_steps_are_enabled, numbers_are_the_tables,
    published_thunks_fit, runs_may_be_followed, slots_have_room,
};
