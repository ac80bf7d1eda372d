//! The pure machine joined with the components of its invariant.
//!
//! The definitions stand in specs: `Epochs`, `Descriptors` and `Collects` are what holds in every state
//! that the machine reaches, `Joined`, `Chunks` and `Supplied` how the machine goes along with the
//! component of epochs and slots, by which events, and what that needs. `laws` has each law on a contract.
#![tactic(auto)]

mod laws;

pub use laws::{
    descriptors_are_sound, epochs_are_sound, first_slots_are_joined, scans_collect,
    steps_are_events_of_slots,
};
