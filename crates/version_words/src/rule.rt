//! The rule of the table: its words and all views show a state of the machine that enabled events lead to.

use crate::bases::Bases;
use crate::view::View;
use atomic_table::TableRule;
use machine_states::body_terms::Thunk;
use machine_states::map_history::Request;
use machine_states::structure_laws::Structure;
use machine_states::table_words::Layout;
use std::marker::PhantomData;

/// What a table is told once.
#[derive(Drop)]
pub struct Setup<S: Structure> {
    pub structure: S,
    pub layout: Layout,
    pub requests: Vec<Request>,
    pub sizes: Bases,
    /// How many node slots there are.
    pub node_slots: u32,
    /// The first cell of the node slots.
    pub first_cell: u32,
    /// The number of the first block among all slots: behind the node slots and the descriptors.
    pub first_block: u32,
}

/// The words and all views show a state of the machine that enabled events lead to.
pub struct Shows<S> {
    marker: PhantomData<S>,
}

impl<S: Structure> TableRule<Thunk, View<S>, Setup<S>> for Shows<S> {
    ghost use Rattle.version_words.specs.Rule.{Holds, keeper_view};

    ghost holds = { λ key s. Holds (S.meaning key.structure) key.structure key.layout key.requests.items s };

    ghost first = { λ key. keeper_view (S.meaning key.structure) key.structure key.layout key.requests.items };
}
