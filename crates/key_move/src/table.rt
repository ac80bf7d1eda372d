//! The table that moves keys, too, as a structure.
ghost use Rattle.std.specs.Prelude.{◌≡◌, ◌+◌, ◌*◌, ◌<◌, ◌≤◌, ◌^◌, true, refl};
ghost use Rattle.bucket_walks.specs.section_body.specs.Bucket.{bucket_index};
ghost use Rattle.machine_states.specs.table_words.specs.Places.{slot_count};
ghost use Rattle.bucket_walks.specs.bucket_laws.specs.Buckets.{moves_meaning, is_link_place};
ghost use Rattle.bucket_walks.specs.bucket_laws.proofs.TableLaws.{moves_laws};
ghost use Rattle.key_move.specs.Moving.{begun};

use crate::walk::MoveWalk;
use bucket_walks::bucket_laws::bucket_bodies::{move_body, move_body_in};
use lock_walks::follow;
use machine_states::body_terms::{Body, Place, Thunk, Word};
use machine_states::map_history::Op;
use machine_states::structure_laws::Structure;
use machine_states::table_words::Layout;

/// A map in buckets, as the hash table is, whose sections may also span two keys: `mov a b` gives the value of key a to
/// key b, where a is there and b isn't. Where the keys lie in two buckets a section holds both locks, the lower one
/// first.
#[derive(Drop, Debug)]
pub struct MoveTable {
    pub(crate) bits: u32,
    pub ghost few: { bits ≤ 12 },
}

/// As many links as there are node slots, and eight more: a walk of one key that has loaded them is too far.
pub(crate) fn most_links(layout: Layout) -> u128
    ensures links { result ≡ slot_count layout 0 + 8 }
    ensures some { 0 < result }
    ensures few { result ≤ 73786976294838206464 }
{
    let workers = u128::from(layout.nodes) * u128::from(layout.runners);
    workers + (2 * u128::from(layout.runners) + 2) + 8
}

impl MoveTable {
    /// A table of `2^b` buckets, at most 4096.
    pub fn new(b: u32) -> MoveTable
        requires { b ≤ 12 }
        ensures { result.bits ≡ b }
    {
        MoveTable { bits: b }
    }

    /// How many fixed cells there are: three for each bucket.
    pub(crate) fn cells(&self) -> u32
        ensures count { result ≡ 3 * 2 ^ self.now.bits }
        ensures few { result ≤ 12288 }
    {
        3 * (1 << self.bits)
    }

    /// Whether this place is a link.
    fn is_link(&self, place: Place) -> bool
        ensures { result ≡ is_link_place (2 ^ self.now.bits) (λ key. bucket_index key self.now.bits) place }
    {
        let cells = self.cells();
        if place < cells {
            place % 3 == 2
        } else {
            (place - cells) % 5 == 3
        }
    }

    /// A walk that has loaded nothing.
    pub(crate) fn begin(&self, layout: Layout, op: Op) -> MoveWalk
        ensures { result ≡ begun self.now.bits op (slot_count layout 0 + 8) layout.version_max }
    {
        MoveWalk::new(self.bits, op, most_links(layout), layout.version_max)
    }
}

impl Structure for MoveTable {
    ghost meaning = { λ s. moves_meaning s.bits };

    ghost MAP = { true };

    const MAP: bool = true;

    fn fixed_cells(&self) -> u32 {
        self.cells()
    }

    fn fixed_slots(&self) -> u32 {
        0
    }

    fn first_value(&self, _place: Place) -> u32 {
        0
    }

    fn is_lock(&self, place: Place) -> bool {
        place < self.cells() && place % 3 == 0
    }

    fn body(&self, thunk: &Thunk) -> Body {
        move_body(thunk)
    }

    fn body_in(&self, thunk: &Thunk, body: &mut Body) {
        move_body_in(thunk, body);
    }

    fn reaches(&self, readings: &[(Place, Word)], slot: u32) -> bool {
        readings.iter().any(|&(place, word)| self.is_link(place)
            && u64::from(word.value()) == u64::from(slot) + 1)
    }

    fn fits(&self, layout: Layout, op: Op, readings: &[(Place, Word)], thunk: &Thunk) -> bool {
        let walk = follow(self.begin(layout, op), readings);
        walk.fits(thunk)
    }

    ghost serves = { λ s. refl };

    ghost laws = { λ s. moves_laws s.bits s.few };
}
