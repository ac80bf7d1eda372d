//! The direct table's meaning, and that it meets the laws of a structure.
//!
//! The definitions stand in specs: `Direct` has the places of a key, the two bodies, when a thunk fits, and the
//! meaning. `laws` says that the table meets the laws.
#![tactic(auto)]

mod laws;

pub use laws::{direct_meets_the_laws, direct_meets_the_planners_laws};

// Passed on to the layers above, so that they needn't name these libraries themselves.
pub use key_cells;
