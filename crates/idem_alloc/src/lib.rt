//! Node slots that a run makes and retires, each once, whoever runs the section.
//!
//! Each run fills a slot of its own and commits its number: all of them go on with the one that was committed first,
//! and the others take theirs back. Of the runs that retire a slot the one whose commit is first puts it in its limbo
//! list (Ben-David, Blelloch, Wei, *Lock-free locks revisited*, 2022).
#![tactic(auto)]

mod makes;
mod retires;

pub use makes::{make, make_gated};
pub use retires::{retire, retire_gated};

// Passed on to the layers above, so that they needn't name these libraries themselves.
pub use commit_log;
