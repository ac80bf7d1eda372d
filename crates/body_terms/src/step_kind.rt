//! What a gate is asked with.

/// The kind of atomic step after which a gate is asked.
#[derive(Clone, Copy, Debug, PartialEq, Eq)]
pub enum StepKind {
    /// An attempt entered its epoch.
    Entered,
    /// A load of a plan.
    Walk,
    /// The exchange that published a section.
    Hold,
    /// One of the thirteen loads with which a run opens.
    Opening,
    /// A load of a cell within a run.
    LoadCell,
    /// A commit of a loaded word.
    Commit,
    /// A private load or store of a new node's cell, or a store of 0 into a word of a block that is to be linked.
    Private,
    /// The exchange that links a block.
    LinkCommit,
    /// The commit of a new node's slot.
    MakeCommit,
    /// A load of the epoch for a retired slot.
    EpochForRetire,
    /// The commit of a retired slot.
    RetireCommit,
    /// A load of the clock.
    ClockLoad,
    /// The exchange of a request's stamp word.
    StampExchange,
    /// The raise of the clock to the agreed stamp.
    ClockRaise,
    /// The exchange of a cell to a stored value.
    CellExchange,
    /// The exchange of a request's reply word.
    ReplyExchange,
    /// A load of a nested lock.
    NestedLoad,
    /// The exchange that takes a nested lock.
    NestedHold,
    /// The second load of a nested lock.
    OutcomeLoad,
    /// The commit of what a nested lock was found to hold.
    OutcomeCommit,
    /// The exchange of a section's done word.
    SetDone,
    /// The release of a lock.
    Release,
    /// A request was answered; no step is made.
    Served,
}
