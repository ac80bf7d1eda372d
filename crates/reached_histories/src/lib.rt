//! One legal history in every state that the machine reaches, whatever its runners do.
//!
//! `specs/Sections` says what a worker knows and has published, `specs/History` what holds of the history,
//! of the clock and of the requests, in the words of the machine, and `specs/Laws` that it holds of every
//! reached state. `laws` has it on a contract.
#![tactic(auto)]

mod laws;
mod records;

pub use laws::{reached_histories_are_linearizable, reached_states_have_histories};
pub use records::{
    answered_are_learned, ends_are_over, first_is_kept, frees_are_over, holds_are_due,
    operations_are_asked, publications_are_kept, publications_may_come, steps_are_kept,
};
