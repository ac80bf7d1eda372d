//! What one runner may do next: the word that an event meets, and how; and what becomes of its part.
//!
//! The definitions stand in specs: `Asks` has `asks`, by `Outside` for a runner in no run and `InRun` for one in a
//! run, whose place `Sections` reads off its body's line and its trail; `After` has the part behind an event. `places`
//! computes how many words the table has, where some of them stand, and the words that runners put there.
#![tactic(auto)]

mod places;

pub use places::{
    agreed_on, block_count, block_spot, blocks_from, cell_place, descriptor_count, descriptor_spot,
    held_word, sizes_for, slot_count,
};

// Passed on to the layers above, so that they needn't name these libraries themselves.
pub use runner_parts;
pub use runner_parts::block_words;
pub use runner_parts::structure_laws::{body_terms, map_history, table_words};
