//! What one runner may do next, computed: the word that an event meets, and how.
//!
//! `enabled` has `asks`, by `outside` for a runner in no run, `inside` for one in a run, `reads` for reads without a
//! lock, `guards` for guard words and `board` for the board. `section` reads a run's place off its body's line and its
//! trail, `knowledge` and `stores` say what a runner can tell from what it keeps. The definitions stand in
//! `runner_steps` and `runner_parts`.
#![tactic(auto)]

mod board;
mod enabled;
mod guards;
mod inside;
mod knowledge;
mod outside;
mod reads;
mod section;
mod stores;

pub use enabled::asks;
pub use inside::{LAST_CLOCK, is_open_run, last_of, needs_link, next_of};
pub use section::{is_end, leaves, next_micro, reply_in, settled, source_value, thunk_of};
pub use stores::last_stored;
