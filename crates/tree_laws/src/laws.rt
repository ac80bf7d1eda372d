//! The search tree meets the laws of a structure.
ghost use Rattle.structure_laws.specs.Laws.{Laws};
ghost use Rattle.structure_laws.specs.Planner.{PlannerLaws};
ghost use Rattle.structure_laws.specs.table_words.specs.declared.layout.Layout.{Layout};
ghost use Rattle.tree_laws.specs.Landing.{LandingLaw};
ghost use Rattle.tree_laws.specs.Leaves.{tree};
ghost use Rattle.tree_laws.specs.Search.{InsertionLaw, RemovalLaw, ReplacementLaw, ViewLaw};

/// The search tree meets every law: its first memory, the shape of its bodies, one section after the other, every
/// move, and what the core relies on.
///
/// The tree is that of Ellen, Fatourou, Ruppert and van Breugel (2010): keys in leaves, and a removal marks the
/// leaf's parent before it unlinks both.
pub fn tree_meets_the_laws()
    ensures { Laws tree }
{}

/// Sections can be planned on the tree: a word that a body wants was read, a body that makes nodes answers that it
/// added a pair or put one in the place of another, and with nothing open each pair keeps two slots in use, at most: a
/// leaf and an inner node.
pub fn tree_meets_the_planners_laws()
    ensures { PlannerLaws tree 2 }
{}

/// In a search tree a leaf is taken out together with its parent, whose other child takes the parent's place: the
/// linked nodes are a search tree again, with the same pairs but the leaf's, on whichever sides both links stand.
pub fn removals_keep_the_tree()
    ensures { RemovalLaw }
{}

/// In a search tree a leaf gives its place to a new inner node over it and a new leaf, whose key the old leaf's
/// place covers: the linked nodes are a search tree again, with the same pairs and the new leaf's, on whichever
/// sides both stand.
pub fn insertions_keep_the_tree()
    ensures { InsertionLaw }
{}

/// In a search tree a leaf gives its place to a new one with the same key: the linked nodes are a search tree again,
/// with the same pairs but for the value of this key, on whichever side of its parent it stands.
pub fn replacements_keep_the_tree()
    ensures { ReplacementLaw }
{}

/// One memory is a search tree in one way: two views of it agree on the linked nodes, their parents and the keys that
/// their places cover.
pub fn views_of_a_tree_agree()
    ensures { ViewLaw }
{}

/// As long as the link to the walk's last node and its parent's mark stand as a section's publisher read them, both
/// nodes are linked, and their places cover the section's key: a walk without a lock ends on the key's path.
pub fn walks_land_on_the_path()
    ensures { (layout : Layout) → LandingLaw layout }
{}
