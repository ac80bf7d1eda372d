//! What reads without a lock come to with one worker.
//!
//! The definitions stand in specs: `Lone` has what a read may come to with one worker. `laws` has the law on a
//! contract.
#![tactic(auto)]

mod laws;

pub use laws::lone_reads_are_served;

// Passed on to the layers above, so that they needn't name these libraries themselves.
pub use seq_read;
