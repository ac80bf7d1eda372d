//! Steps of a body, each on one line. The places of a node's cells stand in `specs/Node`.
#![tactic(auto)]

mod steps;

pub use steps::{answer, load, make, retire, store, take, want};
