//! The components' states joined with the structure's laws: they show a lawful scene.
//!
//! The definitions stand in specs: `Shown` is the scene that the states of agreement and of epochs and
//! slots show, `Steps` what may happen to them, `Kept` the invariant. `laws` has each law on a contract.
#![tactic(auto)]

mod laws;

pub use laws::{lawful_scenes_supply, schedules_keep_a_lawful_scene, steps_keep_a_lawful_scene};
