//! What an event makes of a runner's part.
//!
//! `after` is the part after an event, by its kind: `outside` a run, or `inside` one by the step of its `line`;
//! `blocks` is what becomes of its blocks and of its loads of the board. `copies` has copies of a part, so that an
//! event that finds no memory leaves it as it was.
#![tactic(auto)]

mod blocks;
mod copies;
mod event_after;
mod inside;
mod line;
mod outside;

pub use copies::part_copy;
pub use event_after::after;
