//! What structures write alike: the parts of their laws that hold of more than one.
//!
//! `at_key` has what an operation does to its own key, `flag_and_value` a key's value in a flag and a value,
//! `keys_in_order` the pairs of keys below a bound, and `steps` the steps of a body, each on one line.
//! The lemmas stand in proofs: `Nodeless` has what every structure without nodes meets, `Shaping` the shape
//! of a body by the test of its steps, `AtStamp` what a section's cells hold at its Stamp, `AtKey` the
//! map's operations by their key, `Flagged` what is stored for a key, `Listing` the pairs of keys below a
//! bound, and `Numbers` tests of numbers and of readings.
#![tactic(auto)]

mod at_key;
mod flag_and_value;
mod keys_in_order;
mod steps;

pub use at_key::{changes_at, left_at, reply_at};
pub use body_steps::{answer, load, want};
pub use flag_and_value::{flag_for, held, value_for};
pub use keys_in_order::pairs_by_key;
pub use steps::store;
