//! The decisions of a scan of the announcements, and of the collect at its end.
ghost use Rattle.std.specs.Prelude.{◌≡◌, ◌^◌, ◌<◌};
ghost use Rattle.epoch_core.specs.Moves.{is_clear, is_over, is_old, advanced};

/// From this epoch on no advance is tried.
pub const LAST_EPOCH: u64 = 1 << 62;

/// Whether an announcement doesn't stand in the way of an advance from this epoch: it is idle, or this epoch.
pub fn is_clear(epoch: u64, found: u64) -> bool
    ensures { result ≡ is_clear epoch found }
{
    found == 0 || found == epoch
}

/// Whether the scan ends with the announcement `next`, and no advance is tried: it was the keeper's, the
/// last one, and some announcement stands in the way or the epoch is the last.
pub fn is_over(runners: u32, epoch: u64, next: u32, clear: bool) -> bool
    ensures { result ≡ is_over runners epoch next clear }
{
    next == runners && !(clear && epoch < LAST_EPOCH)
}

/// The epoch after one exchange from `epoch` to the next, which found this epoch.
pub fn advanced(found: u64, epoch: u64) -> u64
    requires { epoch < 2 ^ 62 }
    ensures { result ≡ advanced found epoch }
{
    if found == epoch { epoch + 1 } else { found }
}

/// Whether a slot that was retired in this epoch may be used again, now that the other one is reached: two
/// epochs have passed.
pub fn is_old(retired: u64, epoch: u64) -> bool
    ensures { result ≡ is_old retired epoch }
{
    epoch >= 2 && retired <= epoch - 2
}
