//! The body of a planned thunk as a read has it.

use caller_facts::lock_walks::Glance;
use machine_states::body_terms::Step;

/// The body of a planned thunk as a read has it.
#[derive(Clone, Copy, Debug)]
pub enum BodyView<'a> {
    /// Its steps are written down.
    Written(&'a [Step]),
    /// It looks at one cell or two, and its steps aren't written down.
    Glanced(Glance),
}
