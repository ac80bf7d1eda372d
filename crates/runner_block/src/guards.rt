//! The guard words that a sweep reads, as a runner's code keeps them.
ghost use Rattle.std.specs.Prelude.{◌≡◌, ◌++◌, ◌∷◌, [], ◌<◌, IfOk, length};
ghost use Rattle.runner_block.specs.Room.{most_guards};

use std::alloc::{AllocError, Global};
use std::marker::Model;

/// How many guard words a table has at most: those of 16 workers and of the keeper.
const MOST_GUARDS: usize = 17;

/// The guard words that a sweep in progress has read, in the order of the runners, with room for those of all.
#[derive(Drop)]
pub struct GuardWords {
    words: Vec<u64>,
}

impl Model for GuardWords {
    ghost use Rattle.std.specs.Prelude.{◌≡◌, ℕ, List};
    ghost use Rattle.std.specs.Vec.{vec_capacity};
    ghost use Rattle.runner_block.specs.Room.{most_guards};

    ghost Value = { List ℕ };

    ghost view = { λ a. a.words.items };

    ghost invariant = { λ a. vec_capacity a.words ≡ most_guards };
}

impl GuardWords {
    pub fn new(alloc: Global) -> Result<Self, AllocError>
        ensures { IfOk result (λ x. x ≡ []) }
    {
        Ok(GuardWords {
            words: Vec::with_capacity(alloc, MOST_GUARDS)?,
        })
    }

    pub fn words(&self) -> &[u64]
        ensures { result.now ≡ self.now }
    {
        &self.words
    }

    /// One more word was read.
    pub fn read(&mut self, word: u64)
        requires { length self.old < most_guards }
        ensures { self.new ≡ self.old ++ word ∷ [] }
    {
        self.words.push_reserved(word);
    }

    /// A sweep is over, or counts for nothing.
    pub fn forget(&mut self)
        ensures { self.new ≡ [] }
    {
        self.words.clear();
    }
}
