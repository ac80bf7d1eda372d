//! The search tree's bodies: what a section on the tree does, as data.
#![tactic(auto)]

mod bodies;

pub use bodies::{tree_body, tree_body_in};
