//! The hash table's meaning, and that it meets the laws of a structure.
//!
//! The definitions stand in specs: `Chain` has the chains of the buckets, `Walk` the walk of a key and the thunk for
//! it, `Buckets` the meaning and what the table keeps in every scene. `laws` says that the table meets the laws.
#![tactic(auto)]

mod laws;
mod steady;

pub use laws::{
    buckets_meet_the_laws, buckets_meet_the_planners_laws, moves_meet_the_laws,
    moves_meet_the_planners_laws,
};
pub use steady::bucket_walks_are_short;

// Passed on to the layers above, so that they needn't name these libraries themselves.
pub use bucket_bodies;
