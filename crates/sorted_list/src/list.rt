//! The sorted list as a structure.
ghost use Rattle.std.specs.Prelude.{◌≡◌, ◌+◌, ◌≤◌, true, refl};
ghost use Rattle.list_walks.specs.structure_laws.specs.table_words.specs.Places.{slot_count};
ghost use Rattle.list_walks.specs.list_laws.specs.Nodes.{list};
ghost use Rattle.list_walks.specs.list_laws.proofs.ListLaws.{list_laws};
ghost use Rattle.list_walks.specs.Leading.{first_walk};

use crate::walker::SortedWalk;
use list_walks::ListWalk;
use list_walks::list_bodies::{list_body, list_body_in};
use list_walks::structure_laws::Structure;
use list_walks::structure_laws::body_terms::{Body, Place, Thunk, Word};
use list_walks::structure_laws::map_history::Op;
use list_walks::structure_laws::table_words::Layout;
use lock_walks::follow;

/// A map in a sorted linked list (Heller, Herlihy, Luchangco, Moir, Scherer, Shavit, *A lazy concurrent list-based set
/// algorithm*, 2005): the pairs stand in nodes between a head and a tail, in the order of their keys. An insertion
/// locks the node behind which its own comes; a removal, and a new value for a present key, lock the node before the
/// key's and then the key's own, which they mark and take out.
#[derive(Drop, Debug)]
pub struct SortedList {}

/// As many links as there are node slots, and eight more: a walk that has loaded them is too far.
fn most_links(layout: Layout) -> u128
    ensures links { result ≡ slot_count layout 2 + 8 }
    ensures few { result ≤ 73786976294838206464 }
{
    let workers = u128::from(layout.nodes) * u128::from(layout.runners);
    2 + workers + (2 * u128::from(layout.runners) + 2) + 8
}

impl SortedList {
    /// A list.
    pub fn new() -> SortedList {
        SortedList {}
    }

    /// A walk that has loaded nothing.
    pub(crate) fn begin(&self, layout: Layout, op: Op) -> ListWalk
        ensures { result ≡ first_walk layout op }
    {
        ListWalk::new(op, most_links(layout), layout.version_max)
    }
}

impl Structure for SortedList {
    ghost meaning = { λ s. list };

    ghost MAP = { true };

    const MAP: bool = true;

    fn fixed_cells(&self) -> u32 {
        0
    }

    fn fixed_slots(&self) -> u32 {
        2
    }

    fn first_value(&self, place: Place) -> u32 {
        match place {
            2 => 2,
            6 => 4_294_967_295,
            _ => 0,
        }
    }

    fn is_lock(&self, place: Place) -> bool {
        place % 5 == 0
    }

    fn body(&self, thunk: &Thunk) -> Body {
        list_body(thunk)
    }

    fn body_in(&self, thunk: &Thunk, body: &mut Body) {
        list_body_in(thunk, body);
    }

    fn reaches(&self, readings: &[(Place, Word)], slot: u32) -> bool {
        readings.iter().any(|&(place, word)| place % 5 == 2
            && u64::from(word.value()) == u64::from(slot) + 1)
    }

    fn fits(&self, layout: Layout, op: Op, readings: &[(Place, Word)], thunk: &Thunk) -> bool {
        let walk = SortedWalk {
            walk: self.begin(layout, op),
        };
        let whole = follow(walk, readings);
        whole.walk.fits(thunk)
    }

    ghost serves = { λ s. refl };

    ghost laws = { λ s. list_laws };
}
