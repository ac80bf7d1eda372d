//! The sequential map that everything in Flock is measured by.
//!
//! `op` has what a trace asks and what it is answered, `book` the map that answers one request after another,
//! and `laws` what holds of the map's definitions: requests without a common key commute, an operation with one key
//! sees and changes that key alone, and a history of such is legal exactly where it is legal for each key.
#![tactic(auto)]

mod book;
mod laws;
mod op;
mod reply;

pub use book::Book;
pub use laws::{
    decided_by_the_key, legal_for_each_key, requests_commute, values_stay_small, words_tell_replies,
};
pub use op::{Entry, Op, Request};
pub use reply::Reply;
