//! The law of this crate, on a contract.
ghost use Rattle.tree_laws.specs.Short.{TreeWalksAreShort};

/// On the search tree a walk that reads what stands, in a memory that stands for a map, follows no more links than
/// there are node slots, since each leads to a node whose place covers fewer keys; and each mark that it reads is 0,
/// since it reads those of linked inner nodes alone.
pub fn tree_walks_are_short()
    ensures { TreeWalksAreShort }
{}
