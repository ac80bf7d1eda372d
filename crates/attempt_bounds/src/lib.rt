//! What attempts come to, and what they leave behind, where nobody comes between.
//!
//! The definitions stand in specs: `Lone` has what an attempt may come to with one worker, `Spared` what an attempt
//! leaves in limbo where nobody crossed the runner's steps. `laws` and `spared` have the laws on contracts.
#![tactic(auto)]

mod laws;
mod spared;

pub use laws::lone_attempts_are_served;
pub use spared::attempts_spare_slots;

// Passed on to the layers above, so that they needn't name these libraries themselves.
pub use attempts;
pub use version_words;
