//! What holds of the runners' parts in every state that the machine reaches.
//!
//! The definitions stand in specs: `Facts` has walks, limbo lists, joined workers, descriptors, blocks and worn slots,
//! `Names` what lock words name of which a runner is sure, `Keeper` what the keeper has seen, `Worn` that no slot stands
//! twice in a worn list, `Own` where a worker's own descriptors are. `laws`, `repeats` and `own` have the laws on
//! contracts.
#![tactic(auto)]

mod laws;
mod own;
mod repeats;

pub use laws::{
    blocks_are_kept, descriptors_are_kept, fitting_thunks_are_shaped, joined_workers_are_gone,
    limbo_is_done, names_stand, walks_stand, what_the_keeper_left_stands, worn_slots_are_worn,
};
pub use own::own_descriptors_stand;
pub use repeats::worn_lists_have_no_repeats;
