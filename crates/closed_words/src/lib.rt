//! What the words of a closed table hold: one legal history of the requests that have an entry, and where no lock is
//! held the map after them.
//!
//! `specs/Histories` has the definitions, in the words of the table alone, and `laws` the law on a contract.
#![tactic(auto)]

mod laws;

pub use laws::closed_words_have_a_history;

// Passed on to the layers above, so that they needn't name these libraries themselves.
pub use version_words;
