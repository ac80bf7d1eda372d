//! The steps that a section's body is made of.
ghost use Rattle.std.specs.Prelude.{◌≡◌};
ghost use Rattle.body_terms.specs.Shape.{phase, is_take, is_make, is_stamp, is_answer};

use crate::value::{Init, Value};
use crate::word::{Place, Word};

/// One step of a body. The default, `Stamp`, fills the unused places of a body.
#[derive(Clone, Copy, Debug, Default, PartialEq, Eq)]
pub enum Step {
    /// Loads a cell and agrees on its word.
    Load { place: Place, into: u8 },
    /// Leaves with `Stale` where the register's word isn't this one.
    Want { reg: u8, word: Word },
    /// Leaves with `Spent` where the register's version is the greatest version.
    Fresh { reg: u8 },
    /// Takes a further lock, whose free word is this one, or leaves.
    Take { place: Place, word: Word },
    /// Fills a free node slot and agrees on its number.
    Make { init: Init, into: u8 },
    /// Gives the request its stamp.
    #[default]
    Stamp,
    /// Exchanges the register's cell from the register's word to the next word with this value.
    Store { reg: u8, value: Value },
    /// Retires a node slot.
    Retire { slot: u32 },
    /// Gives the request its reply word.
    Answer { reply: u64 },
}

impl Step {
    /// The phase in which the step may stand, from 1 for the steps that may leave to 6 for `Answer`.
    pub fn phase(&self) -> u32
        ensures { result ≡ phase self.now }
    {
        match self {
            Step::Load { .. } | Step::Want { .. } | Step::Fresh { .. } | Step::Take { .. } => 1,
            Step::Make { .. } => 2,
            Step::Stamp => 3,
            Step::Store { .. } => 4,
            Step::Retire { .. } => 5,
            Step::Answer { .. } => 6,
        }
    }

    /// Whether this is a `Take`.
    pub fn is_take(&self) -> bool
        ensures { result ≡ is_take self.now }
    {
        matches!(self, Step::Take { .. })
    }

    /// Whether this is a `Make`.
    pub fn is_make(&self) -> bool
        ensures { result ≡ is_make self.now }
    {
        matches!(self, Step::Make { .. })
    }

    /// Whether this is the `Stamp`.
    pub fn is_stamp(&self) -> bool
        ensures { result ≡ is_stamp self.now }
    {
        matches!(self, Step::Stamp)
    }

    /// Whether this is an `Answer`.
    pub fn is_answer(&self) -> bool
        ensures { result ≡ is_answer self.now }
    {
        matches!(self, Step::Answer { .. })
    }
}
