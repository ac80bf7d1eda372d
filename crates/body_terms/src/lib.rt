//! What section bodies are made of.
//!
//! `word`, `value`, `step`, `body` and `thunk` are the data; `misshape`, `fault` and `check` say which lists of steps
//! are bodies. `micro` and `line` give a body as its line of atomic steps, and `costs` counts them. `trail` and
//! `outcome` are what a run agrees on and comes to. `step_kind` has the kinds of step by which a gate is asked, and
//! `steps` counts steps. The definitions of one run in one go stand in specs.
#![tactic(auto)]

mod body;
mod check;
mod costs;
mod fault;
mod line;
mod micro;
mod misshape;
mod outcome;
mod step;
mod step_kind;
mod steps;
mod thunk;
mod trail;
mod value;
mod word;

pub use body::Body;
pub use costs::cost;
pub use line::{Register, micro_at, register_at, source};
pub use micro::{Micro, Source};
pub use misshape::Misshape;
pub use outcome::{Outcome, Refused};
pub use step::Step;
pub use step_kind::StepKind;
pub use steps::Steps;
pub use thunk::Thunk;
pub use trail::Trail;
pub use value::{Init, Value};
pub use word::{Place, Word};

// Passed on to the layers above, so that they needn't name these libraries themselves.
pub use block_words;
