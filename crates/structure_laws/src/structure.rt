//! What a structure tells the machine.
ghost use Rattle.std.specs.Prelude.{◌≡◌, ℕ, Bool};
ghost use Rattle.structure_laws.specs.Meaning.{Meaning};
ghost use Rattle.structure_laws.specs.Laws.{Laws};
ghost use Rattle.structure_laws.specs.Cells.{IsFixed};

use body_terms::block_words::table_words::Layout;
use body_terms::{Body, Place, Thunk, Word};
use map_history::Op;

/// A map, or a structure for tests, over cells and node slots.
///
/// Each call answers the meaning of its name; `laws` are what the machine needs of the meanings.
pub trait Structure: Drop + Send + Sync {
    ghost meaning: { Self → Meaning };

    ghost MAP: { Bool };

    /// Whether the structure serves the map's operations.
    const MAP: bool;

    /// How many fixed cells there are.
    fn fixed_cells(&self) -> u32
        ensures { result ≡ (meaning self.now).fixed_cells };

    /// How many fixed node slots there are.
    fn fixed_slots(&self) -> u32
        ensures { result ≡ (meaning self.now).fixed_slots };

    /// The first value of a fixed cell, or of a cell of a fixed slot.
    fn first_value(&self, place: Place) -> u32
        requires { IsFixed (meaning self.now) place }
        ensures { result ≡ (meaning self.now).first_value place };

    /// Whether this cell is a lock.
    fn is_lock(&self, place: Place) -> bool
        ensures { result ≡ (meaning self.now).is_lock place };

    /// The steps of a thunk's body.
    fn body(&self, thunk: &Thunk) -> Body
        ensures { result ≡ (meaning self.now).body thunk.now };

    /// Puts the steps of a thunk's body in place of those that a kept body has.
    fn body_in(&self, thunk: &Thunk, body: &mut Body)
        ensures { body.new ≡ (meaning self.now).body thunk.now }
    {
        *body = self.body(thunk);
    }

    /// Whether the readings give a link to this slot.
    fn reaches(&self, readings: &[(Place, Word)], slot: u32) -> bool
        ensures { result ≡ (meaning self.now).reaches readings.now slot };

    /// Whether the walk in the readings is whole and met no refusal, and the thunk is the one for it.
    fn fits(&self, layout: Layout, op: Op, readings: &[(Place, Word)], thunk: &Thunk) -> bool
        ensures { result ≡ (meaning self.now).fits layout op readings.now thunk.now };

    ghost serves: { (s : Self) → (meaning s).is_map ≡ MAP };

    ghost laws: { (s : Self) → Laws (meaning s) };
}
