//! The kinds of request that are served behind those that fill the table, with their names.

/// A kind of request, or two kinds in turn that leave the table as it was.
#[derive(Clone, Copy, Debug, PartialEq, Eq)]
pub enum Kind {
    /// A look-up that finds its key.
    Found,
    /// A look-up that misses its key.
    Missed,
    /// An insertion that is refused, since its key is there.
    Refused,
    /// The insertion of a key that is absent, and then its deletion.
    Turns,
}

pub const KINDS: [Kind; 4] = [Kind::Found, Kind::Missed, Kind::Refused, Kind::Turns];

impl Kind {
    pub fn name(self) -> &'static str {
        match self {
            Kind::Found => "get",
            Kind::Missed => "missed",
            Kind::Refused => "refused",
            Kind::Turns => "turns",
        }
    }

    /// The kind of this name.
    pub fn named(name: &str) -> Option<Kind> {
        KINDS.into_iter().find(|kind| kind.name() == name)
    }
}
