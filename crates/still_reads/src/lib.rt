//! What a runner has read outside its runs still stands, as long as the lock does that guards it and that it has read
//! free before, over the joint states of agreement and of epochs and slots.
//!
//! The definition stands in specs (`Standing`). `laws` has what is proved of it on a contract.
#![tactic(auto)]

mod laws;

pub use laws::readings_stand;
