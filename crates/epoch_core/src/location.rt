//! Where a slot is.
ghost use Rattle.std.specs.Prelude.{◌≡◌};

use crate::scan::is_old;

/// Where a slot is: a node slot or a descriptor. A live descriptor is a published one.
#[derive(Clone, Copy, Debug, PartialEq, Eq)]
pub enum Location {
    /// It belongs to the structure for good.
    Fixed,
    /// It was given out by a Make or a publication, and isn't retired.
    Live,
    /// In this runner's hand.
    Hand(u32),
    /// In this runner's free list.
    Free(u32),
    /// In this runner's worn list.
    Worn(u32),
    /// In this runner's limbo, retired in this epoch.
    Limbo { runner: u32, epoch: u64 },
    /// On this word of the board, where any runner may take it.
    OnBoard(u32),
}

impl Location {
    ghost use Rattle.epoch_core.specs.Moves.{collected, made, retired};

    /// Where the slot is after this runner has collected for this epoch. A node slot that was retired two epochs before
    /// it leaves the runner's own limbo, to the hand; a descriptor stays.
    pub fn collected(self, is_node: bool, runner: u32, epoch: u64) -> Location
        ensures { result ≡ collected is_node runner epoch self }
    {
        match self {
            Location::Limbo {
                runner: owner,
                epoch: retired,
            } if is_node && owner == runner && is_old(retired, epoch) => Location::Hand(runner),
            other => other,
        }
    }

    /// Where a Make's slot is after its commit, which found this log word: live where the commit won, and
    /// otherwise back in the runner's free list, or in its worn list where a cell has the greatest version.
    pub fn made(found: u64, runner: u32, is_worn: bool) -> Location
        ensures { result ≡ made found runner is_worn }
    {
        if found == 0 {
            Location::Live
        } else if is_worn {
            Location::Worn(runner)
        } else {
            Location::Free(runner)
        }
    }

    /// Where a Retire's slot is after its commit, which found this log word: in this runner's limbo, with
    /// the epoch that it loaded, where the commit won, and otherwise where it was.
    pub fn retired(self, found: u64, runner: u32, epoch: u64) -> Location
        ensures { result ≡ retired found runner epoch self }
    {
        if found == 0 {
            Location::Limbo { runner, epoch }
        } else {
            self
        }
    }
}
