//! What holds of every state that the machine reaches over an allowed table, on one contract.
//!
//! `specs/Facts` gathers the facts, each of which stands with its law in the crate below that proves it.
#![tactic(auto)]

mod laws;

pub use laws::table_keeps_its_facts;
