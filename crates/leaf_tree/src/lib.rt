//! An external search tree with a lock per inner node.
#![tactic(auto)]

mod contents;
mod plan;
mod tree;
mod walker;

pub use tree::LeafTree;
pub use walker::LeafWalk;
