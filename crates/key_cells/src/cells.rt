//! What an author gives.
ghost use Rattle.std.specs.Prelude.{◌≡◌, ◌<◌, slice_index};
ghost use Rattle.key_cells.specs.Keyed.{Keyed, IsKeyed, lock_place, cell_place};

use runner_parts::structure_laws::body_terms::Place;

/// A structure that gives each key below a bound some cells of its own, at most three, under one lock.
pub trait KeyCells: Drop {
    ghost keyed: { Self → Keyed };

    /// The bound of its keys.
    fn keys(&self) -> u32
        ensures keys { result ≡ (keyed self.now).keys }
        ensures some { 0 < result };

    /// How many cells a key has.
    fn count(&self) -> u32
        ensures { result ≡ (keyed self.now).count };

    /// The lock of a key.
    fn lock_of(&self, key: u32) -> Place
        requires { key < (keyed self.now).keys }
        ensures { result ≡ lock_place (keyed self.now) key };

    /// The place of a key's cell with this number.
    fn cell(&self, key: u32, number: u32) -> Place
        requires key { key < (keyed self.now).keys }
        requires number { number < (keyed self.now).count }
        ensures { result ≡ cell_place (keyed self.now) key number };

    /// What a key has, by the words of its cells, as bits.
    fn held(&self, words: &[u64]) -> Option<u32>
        ensures { result ≡ (keyed self.now).held (slice_index words.now) };

    /// The value of the cell with this number, of a key that has this.
    fn value(&self, has: Option<u32>, number: u32) -> u64
        ensures { result ≡ (keyed self.now).value has number };

    ghost lawful: { (s : Self) → IsKeyed (keyed s) };
}
