//! What plans come to with one worker.
//!
//! The definitions stand in specs: `Lone` has when a runner is alone, and what a plan may be refused by then. `laws`
//! has the law on a contract.
#![tactic(auto)]

mod laws;

pub use laws::lone_plans_meet_nobody;
