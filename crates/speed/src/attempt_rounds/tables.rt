//! The structures that keep the map, with their names.

/// Which structure keeps the map.
#[derive(Clone, Copy, Debug, PartialEq, Eq)]
pub enum TableKind {
    /// The hash table with a lock for each bucket.
    Hash,
    /// The search tree with a lock in each inner node.
    Tree,
}

pub const TABLES: [TableKind; 2] = [TableKind::Hash, TableKind::Tree];

impl TableKind {
    pub fn name(self) -> &'static str {
        match self {
            TableKind::Hash => "hash",
            TableKind::Tree => "tree",
        }
    }

    /// The structure of this name.
    pub fn named(name: &str) -> Option<TableKind> {
        TABLES.into_iter().find(|table| table.name() == name)
    }
}
