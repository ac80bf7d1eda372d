//! The search tree's meaning, and the laws of a structure, which it meets.
//!
//! The definitions stand in specs: `Search` has search trees, `Walk` the walk of a key and the thunk for it,
//! `Leaves` the meaning and what the tree keeps in every scene. `laws` has the laws.
#![tactic(auto)]

mod laws;
mod steady;

pub use laws::{
    insertions_keep_the_tree, removals_keep_the_tree, replacements_keep_the_tree,
    tree_meets_the_laws, tree_meets_the_planners_laws, views_of_a_tree_agree,
    walks_land_on_the_path,
};
pub use steady::tree_walks_are_short;

// Passed on to the layers above, so that they needn't name these libraries themselves.
pub use tree_bodies;
