//! The completed memory: the memory in which each stamped section has made its remaining Stores.
//!
//! The definitions stand in specs: `Pending` has the Stores that stamped sections have still to make and the completed
//! memory, `Moves` what becomes of the map for which it stands. `laws` has the law on a contract.
#![tactic(auto)]

mod laws;

pub use laws::moves_keep_the_completed_memory;
