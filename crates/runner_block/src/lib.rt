//! What a runner's code keeps of its part, in one block of memory that is reserved once.
//!
//! `block` is the whole, `kept` the runner's stage and lists, `nodes` and `descriptors` the lists of its
//! slots, `guards` the guard words that a sweep reads, `marks` what is kept of loads of the board, `reserved` lists
//! with reserved room, `stage_fields` the stage, and `place` where its run is.
#![tactic(auto)]

mod block;
mod descriptors;
mod guards;
mod kept;
mod log_blocks;
mod marks;
mod nodes;
mod place;
mod reserved;
mod stage_fields;
mod waiting;

pub use block::Block;
pub use kept::{Kept, RunRoom, Share};
pub use place::RunPlace;
