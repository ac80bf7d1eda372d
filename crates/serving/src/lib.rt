//! The serving of a worker's requests, one after the other.
//!
//! `answers` is what it may come to, `persists` attempts one request until it is answered or isn't attempted again, and
//! `serves` goes along the list.
#![tactic(auto)]

mod answers;
mod persists;
mod serves;

pub use answers::Served;
pub use serves::serve;

// Passed on to the layers above, so that they needn't name these libraries themselves.
pub use attempt_bounds;
