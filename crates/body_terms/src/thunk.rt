//! What a section is published with.

use crate::word::{Place, Word};

/// The form of a section's body with the operands from which the body is made.
#[derive(Clone, Copy, Debug, PartialEq, Eq)]
pub struct Thunk {
    /// The form of the body.
    pub form: u64,
    /// The number of the request that the section serves.
    pub request: u32,
    /// The outer lock's place.
    pub lock: Place,
    /// The outer lock's free word, as it was read.
    pub word: Word,
    /// The operands; those that the form doesn't name are 0.
    pub operands: [u64; 8],
}
