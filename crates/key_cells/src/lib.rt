//! Structures that give each key some cells of its own, at most three, under one lock.
//!
//! `cells` is what an author gives, `body` the bodies over these cells, `fit` whether a thunk is the one for its
//! readings, and `readings` looks into what was read. `proofs/KeyedLaws` has that such a structure meets the laws.
#![tactic(auto)]

mod body;
mod cells;
mod fit;
mod readings;

pub use body::fill_body;
pub use cells::KeyCells;
pub use fit::key_fits;
pub use readings::{has_pair, word_at};

// Passed on to the layers above, so that they needn't name these libraries themselves.
pub use shared_laws;
