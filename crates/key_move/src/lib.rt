//! A hash table with one lock per bucket whose sections may also span two keys.
#![tactic(auto)]

mod plan;
mod table;
mod walk;
mod walker;

pub use table::MoveTable;
pub use walk::MoveWalk;

// Passed on to the layers above, so that they needn't name these libraries themselves.
pub use lock_walks;
