//! The serving of a worker's requests, where a `get` may be read first, without its lock.
//!
//! `one` serves one request, and `serves_freely` goes along the list.
#![tactic(auto)]

mod one;
mod serves_freely;

pub use serves_freely::serve_freely;

// Passed on to the layers above, so that they needn't name these libraries themselves.
pub use serving;
