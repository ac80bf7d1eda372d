//! The walk of a key through the search tree, load by load.
//!
//! `walk` has the walk, which loads nothing itself: it says which place it wants next, and goes on by the word that
//! stood there. `stage` has what it loads next and the links that it has followed, and `thunk` the thunk for a whole
//! walk. `laws` says that it leads a plan and makes few loads, and that a `get` changes nothing.
#![tactic(auto)]

mod laws;
mod stage;
mod thunk;
mod walk;

pub use laws::{
    far_walks_are_long, tree_gets_only_look, tree_walks_lead, tree_walks_make_few_loads,
};
pub use stage::{Link, Stage};
pub use walk::TreeWalk;

// Passed on to the layers above, so that they needn't name these libraries themselves.
pub use runner_parts::structure_laws;
pub use tree_laws::tree_bodies;
