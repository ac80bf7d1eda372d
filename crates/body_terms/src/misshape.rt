//! Why a list of steps is no body.

/// The first fault of a list of steps, with the place at which it shows.
#[derive(Clone, Copy, Debug, PartialEq, Eq)]
pub enum Misshape {
    /// There are more than 32 steps.
    TooLong { at: usize },
    /// A step that may leave follows one that can't be undone.
    ExitAfterEffect { at: usize },
    /// A step stands too late, or is a second `Stamp` or `Answer`.
    OutOfOrder { at: usize },
    /// No `Stamp` stands before this place.
    NoStamp { at: usize },
    /// No `Answer` ends the body.
    NoAnswer { at: usize },
    /// A third `Make`.
    TooManyMakes { at: usize },
    /// A register is used before it was set by the fitting kind of step, is set twice, or is above 15.
    RegisterUnset { at: usize },
    /// A `Store` whose register has no earlier `Fresh`.
    NotFresh { at: usize },
    /// A `Store` to a place that an earlier `Store` has.
    StoredTwice { at: usize },
}
