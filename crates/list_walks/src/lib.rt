//! The walk of a key along the sorted list, load by load.
//!
//! `walk` has the walk, which loads nothing itself: it says which place it wants next, and goes on by the word that
//! stood there. `stage` has what it loads next, and `thunk` the thunk for a whole walk. `laws` says that it leads a
//! plan and makes few loads, and that a `get` changes nothing.
#![tactic(auto)]

mod laws;
mod stage;
mod thunk;
mod walk;

pub use laws::{
    far_walks_are_long, list_gets_only_look, list_walks_lead, list_walks_make_few_loads,
};
pub use stage::Stage;
pub use walk::ListWalk;

// Passed on to the layers above, so that they needn't name these libraries themselves.
pub use list_laws::list_bodies;
pub use runner_parts::structure_laws;
