//! The search tree as a structure.
ghost use Rattle.std.specs.Prelude.{◌≡◌, ◌+◌, ◌≤◌, true, refl};
ghost use Rattle.tree_walks.specs.structure_laws.specs.table_words.specs.Places.{slot_count};
ghost use Rattle.tree_walks.specs.tree_laws.specs.Leaves.{tree, shows_inner, shows_link};
ghost use Rattle.tree_walks.specs.tree_laws.proofs.TreeLaws.{tree_laws};
ghost use Rattle.tree_walks.specs.Leading.{first_walk};

use crate::walker::LeafWalk;
use lock_walks::follow;
use tree_walks::TreeWalk;
use tree_walks::structure_laws::Structure;
use tree_walks::structure_laws::body_terms::{Body, Place, Thunk, Word};
use tree_walks::structure_laws::map_history::Op;
use tree_walks::structure_laws::table_words::Layout;
use tree_walks::tree_bodies::{tree_body, tree_body_in};

/// A map in an external search tree (Ellen, Fatourou, Ruppert, van Breugel, *Non-blocking binary search trees*, 2010):
/// the pairs stand in leaves, and a key below an inner node's goes left. Two sentinel keys above all real ones give
/// each real leaf a parent and a grandparent. An insertion locks the parent of the leaf at which its walk ended; a
/// removal locks the grandparent and then the parent, which it marks and takes out.
#[derive(Drop, Debug)]
pub struct LeafTree {}

/// As many links as there are node slots, and eight more: a walk that has loaded them is too far.
fn most_links(layout: Layout) -> u128
    ensures links { result ≡ slot_count layout 3 + 8 }
    ensures few { result ≤ 73786976294838206464 }
{
    let workers = u128::from(layout.nodes) * u128::from(layout.runners);
    3 + workers + (2 * u128::from(layout.runners) + 2) + 8
}

/// Whether the readings show that this place is the left link of an inner node.
fn shows_inner_at(readings: &[(Place, Word)], left: Place) -> bool
    ensures { result ≡ shows_inner readings.now left }
{
    readings
        .iter()
        .any(|&(place, word)| place == left && 0 < word.value())
}

/// Whether the readings show that this place is a link.
fn shows_link_at(readings: &[(Place, Word)], place: Place) -> bool
    ensures { result ≡ shows_link readings.now place }
{
    match place % 5 {
        2 => true,
        3 => shows_inner_at(readings, place - 1),
        _ => false,
    }
}

impl LeafTree {
    /// A tree.
    pub fn new() -> LeafTree {
        LeafTree {}
    }

    /// A walk that has loaded nothing.
    pub(crate) fn begin(&self, layout: Layout, op: Op) -> TreeWalk
        ensures { result ≡ first_walk layout op }
    {
        TreeWalk::new(op, most_links(layout), layout.version_max)
    }
}

impl Structure for LeafTree {
    ghost meaning = { λ s. tree };

    ghost MAP = { true };

    const MAP: bool = true;

    fn fixed_cells(&self) -> u32 {
        0
    }

    fn fixed_slots(&self) -> u32 {
        3
    }

    fn first_value(&self, place: Place) -> u32 {
        match place {
            1 | 11 => 4_294_967_295,
            2 => 2,
            3 => 3,
            6 => 4_294_967_294,
            _ => 0,
        }
    }

    fn is_lock(&self, place: Place) -> bool {
        place % 5 == 0
    }

    fn body(&self, thunk: &Thunk) -> Body {
        tree_body(thunk)
    }

    fn body_in(&self, thunk: &Thunk, body: &mut Body) {
        tree_body_in(thunk, body);
    }

    fn reaches(&self, readings: &[(Place, Word)], slot: u32) -> bool {
        readings.iter().any(|&(place, word)| {
            shows_link_at(readings, place) && u64::from(word.value()) == u64::from(slot) + 1
        })
    }

    fn fits(&self, layout: Layout, op: Op, readings: &[(Place, Word)], thunk: &Thunk) -> bool {
        let walk = LeafWalk {
            walk: self.begin(layout, op),
        };
        let whole = follow(walk, readings);
        whole.walk.fits(thunk)
    }

    ghost serves = { λ s. refl };

    ghost laws = { λ s. tree_laws };
}
