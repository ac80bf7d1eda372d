//! The history: the stamps give one legal order of all served requests, whatever the steps that lead to them.
//!
//! The definitions stand in specs: `State` is the state, `Events` its events, `Sound` the invariant. `laws`
//! has each law on a contract.
#![tactic(auto)]

mod laws;

pub use laws::{
    a_history_is_made, changes_elsewhere_keep_the_invariant, closed_histories_are_answered,
    events_keep_the_invariant, histories_are_legal, reads_are_made, reads_stand,
    schedules_meet_the_invariant, stamps_rise_without_reads, the_clock_bounds_the_stamps,
    the_history_is_linearizable, what_is_known_stands, words_stand,
};
