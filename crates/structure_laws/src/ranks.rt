//! The law of this crate, on a contract.
ghost use Rattle.structure_laws.specs.Ranks.{RanksFall};

/// Where ranks fall along a walk over slots, each step leaves fewer slots that rank below, and these are fewer than
/// all: so the walk comes to its end within as many steps as there are slots.
pub fn ranks_fall()
    ensures { RanksFall }
{}
