//! What stands of requests in every state that the machine reaches, for a runner that has its part.
//!
//! What it knows stands in the one history, and what it doesn't know of its own requests nobody has served. What it
//! asks from now on comes behind all that is answered.
#![tactic(auto)]

mod laws;

pub use laws::{answered_requests_come_first, reached_callers_stand};

// Passed on to the layers above, so that they needn't name these libraries themselves.
pub use reached_histories;
