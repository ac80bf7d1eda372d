//! The sorted list's bodies: what a section on the list does, as data.
#![tactic(auto)]

mod bodies;

pub use bodies::{list_body, list_body_in};
