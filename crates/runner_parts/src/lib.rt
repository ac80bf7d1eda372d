//! What a runner is at and what it keeps.
//!
//! `event` has the kinds of step. `part` is a runner's part, with `run`, `lists` and `entries`; `lists_change`,
//! `blocks_change` and `board_change` have what events do to the lists, and `stores` the words of a descriptor that
//! hold its thunk.
#![tactic(auto)]

mod blocks_change;
mod board_change;
mod entries;
mod event;
mod lists;
mod lists_change;
mod part;
mod run;
mod stores;

pub use board_change::{board_read, board_tried};
pub use entries::{
    BoardRead, Known, Left, Look, LookStage, Published, Retired, Stored, Tested, Tried, Waiting,
};
pub use event::{Event, EventKind};
pub use lists::{Blocks, Descriptors, Guards, Nodes, Reads, Records};
pub use lists_change::has;
pub use part::Part;
pub use run::{Finished, Run};
pub use stores::thunk_words;

// Passed on to the layers above, so that they needn't name these libraries themselves.
pub use block_words;
pub use epoch_core;
pub use guard_core;
pub use structure_laws;
