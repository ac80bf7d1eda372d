//! The walk of a key through its bucket: how many loads it makes, and what the section of a `get` does.
//!
//! The walk itself is that of `bucket_laws`. `laws` says that it makes few loads, and that a `get` changes nothing.
#![tactic(auto)]

mod laws;

pub use laws::{
    bucket_gets_only_look, bucket_walks_make_few_loads, moves_gets_only_look, moves_make_few_loads,
};

// Passed on to the layers above, so that they needn't name these libraries themselves.
pub use bucket_laws;
pub use bucket_laws::bucket_bodies::section_body;
