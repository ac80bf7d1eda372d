//! Further locks that a section takes, and the release of each lock at its end.
//!
//! Whether a lock is got is decided by words that were agreed on, so each run of the section has the same answer: the
//! lock's word before it is taken, and the one after the exchange that was to take it (Ben-David, Blelloch, Wei,
//! *Lock-free locks revisited*, 2022).
#![tactic(auto)]

mod answers;
mod drops;
mod takes;

pub use answers::refused;
pub use drops::drop_lock;
pub use takes::{TakeEnd, take, take_gated};
