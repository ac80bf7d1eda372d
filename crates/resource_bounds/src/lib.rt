//! How much of versions and node slots is used up, in every state that the machine reaches.
//!
//! The definitions stand in specs: `Versions` counts how often the versions of cells were raised, `Makes` how many node
//! slots Makes use up, `InUse` how many are in use where no lock is held. `laws`, `makes` and `in_use` have the laws
//! on contracts.
#![tactic(auto)]

mod in_use;
mod laws;
mod makes;

pub use in_use::few_slots_are_in_use;
pub use laws::versions_are_counted;
pub use makes::{few_pairs_are_added, makes_are_counted};
