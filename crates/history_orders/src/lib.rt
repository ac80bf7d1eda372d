//! Histories of requests by their stamps: their order, their replay, and where a new entry goes.
//!
//! The definitions stand in specs: `Turns` is the order, `Stamped` histories and their replay. `laws` has each law on a
//! contract.
#![tactic(auto)]

mod laws;

pub use laws::{
    a_history_is_one, entries_are_put_in, replays_are_legal, still_entries_are_put_in,
    turns_are_found, turns_follow, turns_stand,
};

// Passed on to the layers above, so that they needn't name these libraries themselves.
pub use map_history;
