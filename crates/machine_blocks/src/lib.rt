//! Where the words of the sections' logs stand: in their descriptors, and in the blocks that are linked to them.
//!
//! `specs/Stands` says it of the machine's state beside those of agreement and of epochs and slots, and `specs/Keeps`
//! that each step keeps it, and what commits and links find; `specs/Writes` says what a step writes into the logs. `laws`
//! has each law on a contract.
#![tactic(auto)]

mod laws;

pub use laws::{
    commits_find_the_log, linked_blocks_are_few, links_lead_on, logs_stand_at_first,
    steps_keep_logs, steps_write_logs,
};
