//! Walks over fixed places: what the plans of structures share whose walks load the same cells whatever they read, and
//! a lock last.
//!
//! `course` is what such a structure gives, `walk` the walk, `keys` the walk of a key and the pairs of a closed table
//! for a structure of keys' cells.
#![tactic(auto)]

mod course;
mod keys;
mod walk;

pub use course::FixedPlaces;
pub use keys::{key_pairs, key_walk};
pub use walk::FixedWalk;

// Passed on to the layers above, so that they needn't name these libraries themselves.
pub use lock_walks;
pub use runner_parts::structure_laws;
