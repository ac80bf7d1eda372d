// What a run leaves.

use hash_table::HashTable;
use key_move::MoveTable;
use leaf_tree::LeafTree;
use sorted_list::SortedList;
use threaded_runs::serving::Served;
use version_words::Words;

/// The closed words of a run, and what each runner answered, in the order of their numbers. Its words come from the
/// closing of a table alone.
#[derive(Drop)]
pub enum Ran {
    /// On the hash table.
    Hash(Words<HashTable>, Vec<Served>),
    /// On the hash table that moves keys, too.
    Move(Words<MoveTable>, Vec<Served>),
    /// On the search tree.
    Tree(Words<LeafTree>, Vec<Served>),
    /// On the sorted list.
    List(Words<SortedList>, Vec<Served>),
}

/// The same with the words and the answers of every table.
macro_rules! on_table {
    ($ran:expr, ($words:pat, $answers:pat) => $done:expr) => {
        match $ran {
            $crate::ran::Ran::Hash($words, $answers) => $done,
            $crate::ran::Ran::Move($words, $answers) => $done,
            $crate::ran::Ran::Tree($words, $answers) => $done,
            $crate::ran::Ran::List($words, $answers) => $done,
        }
    };
}

pub(crate) use on_table;
