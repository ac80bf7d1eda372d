//! The law of walks that read what stands, on a contract.
ghost use Rattle.list_laws.specs.Short.{ListWalksAreShort};

/// On the sorted list a walk that reads what stands, in a memory that stands for a map, loads no more links than there
/// are node slots, since each leads to a node that ranks higher; and each mark that it reads is 0, since it reads those
/// of linked nodes alone.
pub fn list_walks_are_short()
    ensures { ListWalksAreShort }
{}
