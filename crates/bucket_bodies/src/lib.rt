//! All bodies of the hash table's sections, and of a table that moves keys, too: what a section on the table does, as
//! data.
#![tactic(auto)]

mod bodies;
mod moves;

pub use bodies::{table_body, table_body_in};
pub use moves::{move_body, move_body_in};

// Passed on to the layers above, so that they needn't name these libraries themselves.
pub use section_body;
