//! Sections under locks: a section is published in its lock, and whoever meets the lock held runs it to its end.
//!
//! `planned` is what a plan answers; plans stand in `lock_walks`. `section` has what a caller holds of its own section,
//! `publishes` how a section is published, `watches` how a lock is watched that is held, `runs` how a section is run,
//! by its publisher or by others (Ben-David, Blelloch, Wei, *Lock-free locks revisited*, 2022).
#![tactic(auto)]

mod planned;
mod publishes;
mod runs;
mod section;
mod watches;

pub use planned::Planned;
pub use publishes::publish;
pub use runs::{help, run_section};
pub use section::Section;
pub use section_runs::RunEnd;
pub use watches::watch;

// Passed on to the layers above, so that they needn't name these libraries themselves.
pub use epoch_slots;
pub use section_runs;
pub use section_runs::commit_log;
