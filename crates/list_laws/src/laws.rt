//! The sorted list meets the laws of a structure.
ghost use Rattle.structure_laws.specs.Laws.{Laws};
ghost use Rattle.structure_laws.specs.Planner.{PlannerLaws};
ghost use Rattle.structure_laws.specs.table_words.specs.declared.layout.Layout.{Layout};
ghost use Rattle.list_laws.specs.Landing.{LandingLaw, HeldLaw};
ghost use Rattle.list_laws.specs.Line.{InsertionLaw, RemovalLaw, MarkingLaw, ViewLaw};
ghost use Rattle.list_laws.specs.Nodes.{list};

/// The sorted list meets every law: its first memory, the shape of its bodies, one section after the other, every move,
/// and what the core relies on.
///
/// The list is that of Heller, Herlihy, Luchangco, Moir, Scherer and Shavit (2005): searches take no lock, a change
/// locks the node before and the node itself, and a removal marks the node before it unlinks it.
pub fn list_meets_the_laws()
    ensures { Laws list }
{}

/// Sections can be planned on the list: a word that a body wants was read, a body that makes a node answers that it
/// added a pair or put one in the place of another, and with nothing open each pair keeps one slot in use, at most.
pub fn list_meets_the_planners_laws()
    ensures { PlannerLaws list 1 }
{}

/// In a sorted list a node comes between two others that stand one behind the other, where its rank lies between
/// theirs: the linked nodes are a line again.
pub fn insertions_keep_the_line()
    ensures { InsertionLaw }
{}

/// In a sorted list the node before another one takes over its link: the linked nodes are a line again, without the
/// other one.
pub fn removals_keep_the_line()
    ensures { RemovalLaw }
{}

/// In a sorted list a node whose predecessor has a lower key is marked: the linked nodes are a line still, in the same
/// order.
pub fn marks_keep_the_line()
    ensures { MarkingLaw }
{}

/// One memory is a line in one way: two views of it agree on the linked nodes.
pub fn views_of_a_line_agree()
    ensures { ViewLaw }
{}

/// As long as the predecessor's link and its mark stand as a section's publisher read them, both nodes at which its
/// walk ended are linked, one right behind the other, on both sides of the section's key: a walk without a lock ends in
/// the key's place.
pub fn walks_land_in_place()
    ensures { (layout : Layout) → LandingLaw layout }
{}

/// From each node that a walk holds, linked or not, the present links lead on to a linked node, over nodes of which the
/// same holds, with keys that never fall; each of them that isn't marked is linked. And no link that a walk read led to
/// the node in which it stood.
pub fn links_lead_on()
    ensures { (layout : Layout) → HeldLaw layout }
{}
