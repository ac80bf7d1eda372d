//! The direct table, and the cells of its keys.
ghost use Rattle.std.specs.Prelude.{◌≡◌, ◌+◌, ◌*◌, ◌<◌, ◌≤◌};
ghost use Rattle.direct_laws.specs.Direct.{direct_cells};
ghost use Rattle.direct_laws.proofs.DirectCells.{is_keyed};

use direct_laws::key_cells::shared_laws::{flag_for, held, value_for};
use direct_laws::key_cells::{KeyCells, word_at};
use fixed_walks::structure_laws::body_terms::Place;

/// A map of the keys below a bound. Each key has three cells, and no node: its lock, a flag that is 1 where the key is
/// present, and its value. These cells begin at a place of one's choice; nothing is done with those below it.
#[derive(Drop, Debug)]
pub struct DirectTable {
    pub(crate) base: u32,
    pub(crate) keys: u32,
    pub ghost some: { 0 < keys },
    pub ghost few: { base + 3 * keys ≤ 12288 },
}

impl DirectTable {
    /// A table of the keys below this bound, whose cells begin at this place. From place 0 on it has at most 4096.
    pub fn new(base: u32, keys: u32) -> DirectTable
        requires some { 0 < keys }
        requires few { base + 3 * keys ≤ 12288 }
        ensures base { result.base ≡ base }
        ensures keys { result.keys ≡ keys }
    {
        DirectTable { base, keys }
    }
}

impl KeyCells for DirectTable {
    ghost keyed = { λ s. direct_cells s.base s.keys };

    fn keys(&self) -> u32 {
        self.keys
    }

    fn count(&self) -> u32 {
        2
    }

    fn lock_of(&self, key: u32) -> Place {
        self.base + 3 * key
    }

    fn cell(&self, key: u32, number: u32) -> Place {
        self.base + (3 * key + (1 + number))
    }

    fn held(&self, words: &[u64]) -> Option<u32> {
        held(word_at(words, 0), word_at(words, 1))
    }

    fn value(&self, has: Option<u32>, number: u32) -> u64 {
        if number == 0 {
            flag_for(has)
        } else {
            value_for(has)
        }
    }

    ghost lawful = { λ s. is_keyed s.base s.keys s.few };
}
