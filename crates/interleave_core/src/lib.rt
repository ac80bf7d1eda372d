//! The pure machine: the words of the table and what each runner is at and keeps, over any order of the
//! runners' atomic steps.
//!
//! `machine` has the machine with its steps and readers, `first` its first state, `log_words` the words of a log
//! along its links, `schedules` the machine after a list of events, `laws` what is said of every event and of every
//! structure, and `tray` a structure for tests.
#![tactic(auto)]

mod first;
mod laws;
mod log_words;
mod machine;
mod schedules;
mod tray;

pub use first::worker_part;
pub use laws::{events_are_local, moves_are_lawful};
pub use machine::{Machine, StepError};
pub use machine_states::runner_parts::{Event, EventKind};
pub use machine_states::structure_laws::Structure;
pub use schedules::{ScheduleError, all_schedules};
pub use tray::Tray;

// Passed on to the layers above, so that they needn't name these libraries themselves.
pub use enabled_kinds::runner_asks;
