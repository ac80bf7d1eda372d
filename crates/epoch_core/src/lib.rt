//! Epochs and slots: no slot is given out again while somebody holds it.
//!
//! The definitions stand in specs: `State` is the state, `Events` its events, `Sound` the invariant,
//! `Reuse`, `Commits` and `History` what follows. `laws` has each law on a contract, `stage` and `location`
//! where runners and slots are, and `scan` the decisions of a scan.
#![tactic(auto)]

mod laws;
mod location;
mod scan;
mod stage;

pub use laws::{
    a_slot_comes_round, changes_elsewhere_keep_the_invariant, commits_are_won_once,
    events_keep_the_invariant, held_slots_are_safe, links_may_be_followed, lost_commits_give_back,
    schedules_meet_the_invariant, slots_leave_limbo_late, slots_stand_in_one_list,
    the_history_lasts, the_machine_can_start,
};
pub use location::Location;
pub use scan::{LAST_EPOCH, advanced, is_clear, is_old, is_over};
pub use stage::Stage;
