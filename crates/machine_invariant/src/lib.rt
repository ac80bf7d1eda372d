//! The whole invariant of the pure machine.
#![tactic(auto)]

mod laws;

pub use laws::{
    histories_say_what_happened, lists_are_short, log_words_follow_runs, reached_states_are_sound,
    steps_raise_versions, whole_states_are_sound,
};
