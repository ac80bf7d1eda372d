//! The law of this crate, on a contract.
ghost use Rattle.reached_facts.specs.Facts.{KeepsFacts};

use keeper_facts::what_the_keeper_saw_tells;
use lock_words::runner_facts::{
    blocks_are_kept, descriptors_are_kept, limbo_is_done, own_descriptors_stand,
    worn_lists_have_no_repeats, worn_slots_are_worn,
};
use lock_words::spent_words_stand;
use machine_states::structure_laws::Structure;
use one_worker::resource_bounds::{
    few_pairs_are_added, few_slots_are_in_use, makes_are_counted, versions_are_counted,
};
use one_worker::{lone_board_is_empty, one_worker_is_uncrossed};
use request_facts::reached_callers_stand;
use request_facts::reached_histories::reached_states_have_histories;
use version_words::machine_invariant::lists_are_short;
use version_words::{FlockTable, table_is_allowed};

/// The layout and the requests of a table are allowed, and all facts that are proved of the machine's states hold of
/// every state that it reaches over them.
pub fn table_keeps_its_facts<S: Structure>(table: &FlockTable<S>)
    ensures { KeepsFacts (S.meaning table.now.structure) table.now.layout table.now.requests }
{
    table_is_allowed(table);
    let structure = table.structure();
    reached_states_have_histories(structure);
    reached_callers_stand(structure);
    descriptors_are_kept(structure);
    own_descriptors_stand(structure);
    limbo_is_done(structure);
    blocks_are_kept(structure);
    worn_slots_are_worn(structure);
    worn_lists_have_no_repeats(structure);
    spent_words_stand(structure);
    what_the_keeper_saw_tells(structure);
    lists_are_short(structure);
    few_pairs_are_added(structure);
    versions_are_counted(structure);
    makes_are_counted(structure);
    few_slots_are_in_use(structure);
    one_worker_is_uncrossed(structure);
    lone_board_is_empty(structure);
}
