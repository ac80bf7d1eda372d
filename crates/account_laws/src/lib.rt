//! What accounts mean to the machine, and that they meet the laws of a structure.
//!
//! The definitions stand in specs: `Accounts` has the places of an account, the section that moves money, when a thunk
//! fits, and the meaning; `Money` has sums. `laws` says that the laws are met.
#![tactic(auto)]

mod laws;

pub use laws::accounts_meet_the_laws;

// Passed on to the layers above, so that they needn't name these libraries themselves.
pub use shared_laws;
