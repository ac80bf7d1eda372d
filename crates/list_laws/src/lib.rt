//! The sorted list's meaning, and the laws of a structure, which it meets.
//!
//! The definitions stand in specs: `Line` has the linked nodes in their order, `Walk` the walk of a key and the thunk
//! for it, `Nodes` the meaning and what the list keeps in every scene. `laws` has the laws.
#![tactic(auto)]

mod laws;
mod steady;

pub use laws::{
    insertions_keep_the_line, links_lead_on, list_meets_the_laws, list_meets_the_planners_laws,
    marks_keep_the_line, removals_keep_the_line, views_of_a_line_agree, walks_land_in_place,
};
pub use steady::list_walks_are_short;

// Passed on to the layers above, so that they needn't name these libraries themselves.
pub use list_bodies;
