//! The plain runs of the bodies of the hash table, of the search tree, of the table that moves keys and of the sorted
//! list do what the map does: a law each, on the contract of a function.
#![tactic(auto)]

mod lists;
mod moves;
mod runs;
mod trees;

pub use lists::list_bodies_do_the_operations;
pub use moves::move_bodies_do_the_operations;
pub use runs::bodies_do_the_operations;
pub use trees::tree_bodies_do_the_operations;
