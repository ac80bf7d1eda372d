//! A hash table with one lock per bucket.
#![tactic(auto)]

mod contents;
mod plan;
mod table;
mod walk;
mod walker;

pub use table::HashTable;
pub use walk::BucketWalk;

// Passed on to the layers above, so that they needn't name these libraries themselves.
pub use lock_walks;
