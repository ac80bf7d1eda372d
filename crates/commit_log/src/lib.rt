//! Steps of a run, and the commit of a word that the run has loaded.
//!
//! The thread that runs a section goes through its body's line step by step, and so does each one that helps it. What
//! they load differs; what they go by is the word that was agreed on: the first one that an exchange put into the
//! section's log (Ben-David, Blelloch, Wei, *Lock-free locks revisited*, 2022). `commit` is that exchange for a loaded
//! word, and `links` is what a run does before a commit into a part of its log that isn't linked yet: it links a block.
//! `between` is what comes between two steps: the step is counted, and a gate is asked. `apart` is for gates that never
//! halt: what they are to be asked is counted apart, and told in the end.
#![tactic(auto)]

mod apart;
mod between;
mod commits;
mod links;

pub use apart::{Unasked, tell};
pub use between::passes;
pub use commits::commit;
pub use links::link_if_due;

// Passed on to the layers above, so that they needn't name these libraries themselves.
pub use version_words;
