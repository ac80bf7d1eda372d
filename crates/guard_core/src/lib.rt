//! Guards in place of epochs for descriptors and blocks: hazard pointers, one for each runner.
//!
//! The definitions stand in specs: `State` is the state, `Events` its events, `Sound` the invariant,
//! `Held`, `Sweeps`, `Owners` and `Lists` what follows. `laws` has each law on a contract.
#![tactic(auto)]

mod laws;

pub use laws::{
    a_block_comes_round, all_stand_in_one_list, changes_elsewhere_keep_the_invariant,
    events_keep_the_invariant, held_descriptors_and_blocks_are_safe, limbos_are_left_late,
    limbos_are_small, nothing_changes_hands, schedules_meet_the_invariant,
    sweeps_free_what_no_guard_names, sweeps_leave_enough, the_machine_can_start,
};
