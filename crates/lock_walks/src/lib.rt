//! Walks without a lock: what plans of all structures share.
//!
//! A plan loads cell after cell, asks its gate after each load, and ends where its walk is whole or where a reading
//! refuses it. `walker` is what a structure gives for its walk, and how that follows readings that were made already,
//! `plans` makes the loads and answers by the first refusal in the order of reading, and `planner` is what a structure
//! offers to those who plan on it; `glance` is a section that looks at one cell or two.
#![tactic(auto)]

mod glance;
mod planner;
mod plans;
mod walker;

pub use glance::{Glance, WantedCell};
pub use planner::Planner;
pub use plans::plan_by;
pub use walker::{Walker, follow};

// Passed on to the layers above, so that they needn't name these libraries themselves.
pub use try_lock;
pub use try_lock::commit_log::version_words;
pub use try_lock::{epoch_slots, section_runs};
