//! The walk leads a plan.
ghost use Rattle.std.specs.Prelude.{◌≡◌, true};
ghost use Rattle.runner_parts.specs.structure_laws.specs.map_history.specs.declared.op.Op.{Op};
ghost use Rattle.runner_parts.specs.block_words.specs.table_words.specs.declared.layout.Layout.{Layout};
ghost use Rattle.runner_parts.specs.block_words.specs.table_words.specs.Limits.{IsWithinLimits};
ghost use Rattle.runner_parts.specs.structure_laws.specs.Sections.{IsAllowed};
ghost use Rattle.tree_laws.specs.bucket_laws.specs.Walk.{has_one_key};
ghost use Rattle.tree_walks.specs.Leading.{WalkLeads, FarLaw};
ghost use Rattle.tree_walks.specs.Gets.{WalksMakeFewLoads, GetsOnlyLook};

/// The walk of an operation with one key on the search tree leads a plan, over every layout: it loads what a runner may
/// load and makes at most 3N + 28 loads, N being the number of node slots; a lock refuses it where its word isn't free
/// or is spent, and a mark of 1 always; and once it is whole, its thunk fits what was read.
pub fn tree_walks_lead()
    ensures { (layout : Layout) (op : Op) → has_one_key op ≡ true → WalkLeads layout op }
{}

/// A walk that is refused by no lock and by no mark of 1 has loaded as many links as there are node slots, and eight
/// more: by what is known of the readings in each reached state, over every layout and operation within the limits.
pub fn far_walks_are_long()
    ensures { (layout : Layout) (op : Op) → IsWithinLimits layout → IsAllowed op → FarLaw layout op }
{}

/// Readings each of which the walk wants after those before it are at most 3N + 28, N being the number of node slots,
/// over every layout and operation, whatever was read.
pub fn tree_walks_make_few_loads()
    ensures { WalksMakeFewLoads }
{}

/// A thunk that fits a `get`, over every layout and by any readings, has a body that changes nothing: it loads cells,
/// tests what was loaded, and is stamped and answered.
pub fn tree_gets_only_look()
    ensures { GetsOnlyLook }
{}
