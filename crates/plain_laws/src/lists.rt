//! The plain run of the sorted list's body for an operation does what the map does.
ghost use Rattle.plain_laws.specs.ListRuns.{RunsDoTheOperations};

/// On a plain memory whose contents are a map, the plain run of the body for an operation, with the operands of the
/// operation's walk over this memory, gives the map's reply and its new contents, where each Take is got, no `Fresh`
/// leaves, and the slot of the `Make` is not reached.
pub fn list_bodies_do_the_operations()
    ensures { RunsDoTheOperations }
{}
