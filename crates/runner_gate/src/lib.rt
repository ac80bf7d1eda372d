//! Gates: what a runner is asked by between its atomic steps, and may be stopped by.
//!
//! `gate` is what a gate is. `gates` is where each runner of a table gets its gate and to which it gives it back, and
//! `counts` is what is counted there. `free` has gates that never halt, `planned` gates that halt at an ask with a
//! given number, and `scripted` gates for tests that wait for one another.
#![tactic(auto)]

mod counts;
mod free;
mod gate;
mod gates;
mod planned;
mod scripted;

pub use counts::GatePlan;
pub use free::{Free, FreeGates};
pub use gate::{Gate, Pass};
pub use gates::Gates;
pub use planned::{HaltAt, PlannedGates};
pub use scripted::{Pause, Scripted, ScriptedGates};
