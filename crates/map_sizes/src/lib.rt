//! How large a plain map gets while requests are served in their order.
//!
//! The definitions stand in specs.
#![tactic(auto)]

mod laws;

pub use laws::{histories_in_order_are_replays, sizes_are_below_the_peak};
