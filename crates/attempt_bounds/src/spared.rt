//! The law of this crate, on a contract.
ghost use Rattle.attempt_bounds.specs.Spared.{AttemptsSpareSlots};

use attempts::lock_walks::Planner;

/// Over every structure on which requests are planned, where no other runner's step crossed the runner's own: an
/// attempt takes the epoch on by four at most, and where it lacks slots of a kind none of them is left in limbo. For
/// its last two scans tried the advance and won it, so what the second of them found in limbo was retired two epochs
/// before; and its sweep read no guard word that names a descriptor.
pub fn attempts_spare_slots<S: Planner>(structure: &S)
    ensures { AttemptsSpareSlots S (S.meaning structure.now) (S.planning structure.now) }
{
    let _ = structure;
}
