//! A table addressed by the key itself: the smallest structure on the locks, and the worked example of
//! `docs/OWN_STRUCTURE.md`.
//!
//! `table` has the table with its keys' cells, and `planner` that it is a structure, and that requests are planned on
//! it.
#![tactic(auto)]

mod planner;
mod table;

pub use table::DirectTable;

// Passed on to the layers above, so that they needn't name these libraries themselves.
pub use fixed_walks::lock_walks;
pub use fixed_walks::structure_laws::map_history;
