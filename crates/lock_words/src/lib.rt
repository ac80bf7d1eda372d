//! What stands of words that sections and walks met at locks and cells, in every state that the machine reaches.
//!
//! The definitions stand in specs: `Spent` has the words behind which too few versions are left, `Taken` the words by
//! which sections leave that find the lock of a Take held, `Stale` that a section which left since it found another
//! word than the expected one found another one. `laws`, `taken` and `stale` have the laws on contracts.
#![tactic(auto)]

mod laws;
mod stale;
mod taken;

pub use laws::spent_words_stand;
pub use stale::stale_words_differ;
pub use taken::taken_names_stand;

// Passed on to the layers above, so that they needn't name these libraries themselves.
pub use runner_facts;
