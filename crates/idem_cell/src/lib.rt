//! Loads and stores of cells that each run of a section may make, and that count once.
//!
//! Each run loads the cell for itself and commits what it found; all of them go on with the first word that was
//! committed. A store is an exchange from an agreed word to a word with the next version, so that it changes the cell
//! once, whoever makes it first (Ben-David, Blelloch, Wei, *Lock-free locks revisited*, 2022).
#![tactic(auto)]

mod loads;
mod stores;

pub use loads::{load, load_gated};
pub use stores::store;

// Passed on to the layers above, so that they needn't name these libraries themselves.
pub use machine_states::body_terms;
pub use runner_gate;
pub use section_lines;
