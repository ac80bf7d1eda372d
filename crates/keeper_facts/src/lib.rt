//! What the keeper's record of its steps tells of the locks, once it has joined all workers.
//!
//! The definitions stand in specs.
#![tactic(auto)]

mod laws;

pub use laws::what_the_keeper_saw_tells;
