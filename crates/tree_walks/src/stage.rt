//! What a walk loads next, and the links that it has followed.
ghost use Rattle.std.specs.Prelude.{◌≡◌, ◌<◌};
ghost use Rattle.runner_parts.specs.structure_laws.specs.body_terms.specs.Memory.{cell_of};
ghost use Rattle.tree_laws.specs.Walk.{first_step, step_place, step_to};
ghost use Rattle.tree_walks.specs.Walking.{step_of};

use runner_parts::structure_laws::body_terms::Word;

/// What the walk loads next; it is at its end, or was refused.
#[derive(Clone, Copy, Debug, PartialEq, Eq)]
pub enum Stage {
    /// The root's left link.
    Root,
    /// The left link of the last node.
    Left,
    /// The last node's key.
    Key,
    /// The last node's right link.
    Right,
    /// The value of the key's leaf.
    Value,
    /// The lock of the parent's parent.
    GrandLock,
    /// The mark of the parent's parent.
    GrandMark,
    /// The parent's lock.
    Lock,
    /// The parent's mark.
    Mark,
    /// Nothing: it is whole.
    End,
    /// Nothing: it was refused.
    Refused,
}

/// A link that was followed: the node in which it stands, its side, and its word.
#[derive(Clone, Copy, Debug)]
pub struct Link {
    pub(crate) from: u32,
    pub(crate) left: bool,
    pub(crate) word: Word,
}

impl Link {
    /// The link from the root to the left.
    pub(crate) fn first(word: Word) -> Link
        ensures { step_of result ≡ record first_step { word = word } }
    {
        Link {
            from: 0,
            left: true,
            word,
        }
    }

    /// The slot to which it leads.
    pub(crate) fn to(&self) -> u32
        ensures { result ≡ step_to (step_of self.now) }
    {
        self.word.value().saturating_sub(1)
    }

    /// Its place.
    pub(crate) fn place(&self) -> u64
        ensures { result ≡ step_place (step_of self.now) }
    {
        cell(self.from, if self.left { 2 } else { 3 })
    }
}

/// The place of this cell of a node slot.
pub(crate) fn cell(slot: u32, cell: u64) -> u64
    requires { cell < 5 }
    ensures { result ≡ cell_of 0 slot cell }
{
    5 * u64::from(slot) + cell
}
