//! Section bodies as data, and what one run of a body means.
//!
//! What a body is made of, its shape, its cost and its line of atomic steps stand in `body_terms` and are passed on.
//! Here `memory`, `act` and `plain_run` are one run in one go, and `bucket` has the hash table's places and bodies.
#![tactic(auto)]

mod act;
mod bucket;
mod memory;
mod plain_run;

pub use body_terms::{
    Body, Init, Micro, Misshape, Outcome, Place, Refused, Source, Step, StepKind, Steps, Thunk,
    Trail, Value, Word, cost, micro_at,
};
pub use bucket::{bucket_body, bucket_body_in, bucket_of};
pub use memory::Memory;
pub use plain_run::plain;
