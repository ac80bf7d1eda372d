//! Agreement of helpers: whoever runs a section, its steps take effect once, by what its runs agreed on.
//!
//! The definitions stand in specs: `State` is the state, `Events` its events, `Sound` the invariant with
//! `Sections` and `Runs`. `laws` has each law on a contract.
#![tactic(auto)]

mod laws;

pub use laws::{
    a_section_is_helped, agreed_words_stand, changes_elsewhere_keep_the_invariant,
    effects_happen_once, events_keep_the_invariant, late_runs_change_nothing, loaded_cells_stand,
    locks_name_live_sections, logs_follow_plain_runs, runs_agree, schedules_meet_the_invariant,
    takes_agree, the_history_lasts, versions_rise_by_one,
};

// Passed on to the layers above, so that they needn't name these libraries themselves.
pub use section_lines;
