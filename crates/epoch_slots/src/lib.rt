//! Epochs, guards and slots, call by call: a runner enters and leaves, collects the node slots that have waited long
//! enough, sweeps for the descriptors that nobody guards, and asks for a reserve.
//!
//! A node slot that was retired is used again only when no entered runner can hold it: two epochs later (Fraser,
//! *Practical lock-freedom*, 2004). A retired descriptor is used again once a sweep finds no guard word that names it
//! (Michael, *Hazard pointers*, 2004). `entry` has entering and leaving, `collects` the scan of the announcements and
//! `sweeps` that of the guard words, each with what comes out of limbo, `board` the walks over the board, by which
//! workers give free node slots to one another, and `reserves` the test whether enough slots are free.
#![tactic(auto)]

mod board;
mod collects;
mod entry;
mod hand;
mod reserves;
mod sweeps;

pub use board::{draw, spare};
pub use collects::collect;
pub use entry::{enter, exit};
pub use reserves::{Kind, Short, reserve};
pub use sweeps::sweep;
