//! What a walk loads next.
ghost use Rattle.std.specs.Prelude.{◌≡◌, ◌<◌};
ghost use Rattle.runner_parts.specs.structure_laws.specs.body_terms.specs.Memory.{cell_of};

/// What the walk loads next; it is at its end, or was refused.
#[derive(Clone, Copy, Debug, PartialEq, Eq)]
pub enum Stage {
    /// The predecessor's link.
    Link,
    /// The key of the node to which it leads.
    Key,
    /// The value of the key's node.
    Value,
    /// The predecessor's lock.
    Lock,
    /// The predecessor's mark.
    Mark,
    /// The lock of the key's node.
    NodeLock,
    /// The mark of the key's node.
    NodeMark,
    /// Nothing: it is whole.
    End,
    /// Nothing: it was refused.
    Refused,
}

/// The place of this cell of a node slot.
pub(crate) fn cell(slot: u32, cell: u64) -> u64
    requires { cell < 5 }
    ensures { result ≡ cell_of 0 slot cell }
{
    5 * u64::from(slot) + cell
}
