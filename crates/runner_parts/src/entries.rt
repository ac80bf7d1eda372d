//! The entries of a runner's lists.

use block_words::table_words::Spot;
use structure_laws::body_terms::Thunk;

/// A slot in limbo, with the epoch that was loaded for its retirement.
#[derive(Clone, Copy, Debug, PartialEq, Eq)]
pub struct Retired {
    pub slot: u32,
    pub epoch: u64,
}

/// A node slot in the hand of which some cells have been looked at, in their order: how many, and whether
/// one of them had the greatest version.
#[derive(Clone, Copy, Debug, PartialEq, Eq)]
pub struct Tested {
    pub slot: u32,
    pub cells: u32,
    pub worn: bool,
}

/// What was stored into a word of an own free descriptor, or found there.
#[derive(Clone, Copy, Debug, PartialEq, Eq)]
pub struct Stored {
    pub descriptor: u32,
    pub word: u32,
    pub number: u64,
}

/// A block in limbo, with the descriptor under which it lies: the one to which it was linked.
#[derive(Clone, Copy, Debug, PartialEq, Eq)]
pub struct Waiting {
    pub block: u32,
    pub descriptor: u32,
}

/// What became of a runner's exchange on a word of the board that it had loaded: it wasn't made, won, or lost.
#[derive(Clone, Copy, Debug, PartialEq, Eq)]
pub enum Tried {
    Not,
    Won,
    Lost,
}

/// A load of a word of the board: which word, what was read there, and the runner's exchange on it since.
#[derive(Clone, Copy, Debug, PartialEq, Eq)]
pub struct BoardRead {
    pub word: u32,
    pub read: u64,
    pub tried: Tried,
}

/// A stamp or reply word that isn't 0, as the runner came to know it.
#[derive(Clone, Copy, Debug, PartialEq, Eq)]
pub struct Known {
    pub request: u32,
    pub reply: bool,
    pub number: u64,
}

/// The section that a runner published last, as long as it hasn't run it to its end: its descriptor and its thunk, how
/// many readings the runner had and how many stamp and reply words it knew when it published it.
#[derive(Clone, Copy, Debug, PartialEq, Eq)]
pub struct Published {
    pub descriptor: u32,
    pub thunk: Thunk,
    pub walked: usize,
    pub known: usize,
}

/// How far a read without a lock has come: its thunk was announced, the clock was loaded for it, its reply word was
/// written, its stamp too.
#[derive(Clone, Copy, Debug, PartialEq, Eq)]
pub enum LookStage {
    Planned,
    Looked,
    Replied,
    Stamped,
}

/// A read without a lock: its thunk, the clock that was loaded for it, how many readings the runner had and how
/// many stamp and reply words it knew then, and how far it has come. Up to the load of the clock its numbers are 0.
#[derive(Clone, Copy, Debug, PartialEq, Eq)]
pub struct Look {
    pub thunk: Thunk,
    pub clock: u64,
    pub walked: usize,
    pub known: usize,
    pub stage: LookStage,
}

/// What stood in a word after the runner's step on it.
#[derive(Clone, Copy, Debug, PartialEq, Eq)]
pub struct Left {
    pub spot: Spot,
    pub number: u64,
}
