//! Logs that are kept in parts: a descriptor has the first part, and further ones stand in blocks that are linked to
//! it.
//!
//! The definitions stand in `specs/Blocks`. `places` is where the words and links of a log stand, `laws` has each law
//! on a contract.
#![tactic(auto)]

mod laws;
mod places;

pub use laws::{
    a_commit_adds_a_word, a_descriptor_begins_alone, a_link_adds_a_block, links_lead_on,
    logs_are_read, other_words_play_no_part, prefixes_find_the_log,
};
pub use places::{MOST_BLOCKS, blocks_for, link_spot, log_spot};

// Passed on to the layers above, so that they needn't name these libraries themselves.
pub use table_words;
