//! What a structure gives for a walk over fixed places.
ghost use Rattle.std.specs.Prelude.{◌≡◌, true};
ghost use Rattle.fixed_walks.specs.Fixed.{Course, places_for};

use arrayvec::ArrayVec;
use runner_parts::structure_laws::body_terms::Place;
use runner_parts::structure_laws::map_history::Op;

/// A structure whose walks load the same places whatever they read, or what of it they need.
pub trait FixedPlaces: Drop {
    ghost course: { Self → Course };

    /// The places that the walk of this operation, which it serves, loads in order: cells, and the lock last.
    fn places(&self, op: Op) -> ArrayVec<Place, 16>
        requires { (course self.now).serves op ≡ true }
        ensures { result.items ≡ places_for (course self.now) op };

    /// The form and the operands of the section, by the words that were found, in order, as bits.
    fn section(&self, op: Op, words: &[u64]) -> (u64, [u64; 8])
        ensures { (result.0 ≡ (course self.now).form op words.now)
            × (result.1 ≡ (course self.now).operands op words.now) };
}
