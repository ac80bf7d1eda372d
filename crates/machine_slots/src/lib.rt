//! What stands in the slots that are in hands or free, and who holds the slots in which locks stand, over
//! the joint states of agreement and of epochs and slots.
//!
//! The definitions stand in specs: `Hands` is what holds of the states, `Laws` what is proved of it. `laws`
//! has each law on a contract.
#![tactic(auto)]

mod laws;

pub use laws::{
    first_states_meet_it, free_slots_stand, locks_in_free_slots_are_free, makes_are_supplied,
    makes_find_what_they_stored, publishers_hold_their_locks,
};
