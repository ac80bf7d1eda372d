//! Where a runner is with the epoch.

/// Where a runner is with the epoch.
#[derive(Clone, Copy, Debug, PartialEq, Eq)]
pub enum Stage {
    /// It has announced nothing.
    Idle,
    /// It has loaded this epoch and not announced it yet.
    Loaded(u64),
    /// It has announced an epoch and not loaded the epoch again.
    Announced,
    /// It is entered, with the epoch that its second load gave.
    Entered(u64),
    /// It scans the announcements for this epoch. `next` is the announcement that it reads next, and
    /// `clear` says whether each one read so far was idle or this epoch.
    Scanning { epoch: u64, next: u32, clear: bool },
}
