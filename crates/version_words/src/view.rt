//! What a seat knows.

use machine_states::map_history::Request;
use machine_states::runner_parts::Part;
use machine_states::table_words::Layout;
use std::collections::LinkedList;

/// What a seat knows: the table, the runner's number and its part, and of the keeper the parts of the workers that it
/// joined. No value of it is made. A view that was spent at a join has no structure.
pub struct View<S> {
    pub structure: Option<S>,
    pub layout: Layout,
    pub requests: LinkedList<Request>,
    pub number: u32,
    pub part: Part,
    pub joined: LinkedList<(u32, Part)>,
}
