//! The report of a run: in which order its requests were served, what each was answered, and how many pairs are left.
//!
//! `stamp_counts` ranks the served requests, `order` puts them in order, `report` writes the report's bytes by `line`
//! and `page`, `sink` says what bytes are written to, and `memory` is a sink that keeps them.
#![tactic(auto)]

mod line;
mod memory;
mod order;
mod page;
mod report;
mod sink;
mod stamp_counts;

pub use memory::MemorySink;
pub use order::turns_in_order;
pub use report::write_report;
pub use sink::{Failed, Sink, write_all};
pub use stamp_counts::ranks;

// Passed on to the layers above, so that they needn't name these libraries themselves.
pub use fault_count;
