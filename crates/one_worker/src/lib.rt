//! With one worker nobody comes between.
//!
//! The definitions stand in specs: `Alone` has what stands until the worker publishes a section itself, `Lone` how its
//! sections end, `Uncrossed` who moves the epoch, and `Ungiven` what the board holds. `laws`, `sections`, `epochs` and
//! `board` have the laws on contracts.
#![tactic(auto)]

mod board;
mod epochs;
mod laws;
mod sections;

pub use board::lone_board_is_empty;
pub use epochs::one_worker_is_uncrossed;
pub use laws::one_worker_stands;
pub use sections::lone_sections_go_through;

// Passed on to the layers above, so that they needn't name these libraries themselves.
pub use resource_bounds;
