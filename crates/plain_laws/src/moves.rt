//! The plain run of the body for an operation on the table that moves keys does what the map does.
ghost use Rattle.plain_laws.specs.MoveRuns.{RunsDoTheOperations};

/// On a plain memory whose contents are a map, the plain run of the body for an operation over one key or over two,
/// with the operands of the operation's walk over this memory, gives the map's reply and its new contents, where each
/// Take is got, no `Fresh` leaves, and the slot of the `Make` stands in no chain.
pub fn move_bodies_do_the_operations()
    ensures { RunsDoTheOperations }
{}
