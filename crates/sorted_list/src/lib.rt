//! A sorted linked list with a lock per node.
#![tactic(auto)]

mod contents;
mod list;
mod plan;
mod walker;

pub use list::SortedList;
pub use walker::SortedWalk;
