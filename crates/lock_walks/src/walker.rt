//! What a structure gives for a walk.
ghost use Rattle.std.specs.Prelude.{◌≡◌};
ghost use Rattle.lock_walks.specs.Way.{Way};
ghost use Rattle.lock_walks.specs.Followed.{is_next, followed};

use machine_states::body_terms::{Place, Thunk, Word};

/// How far the walk of an operation has come. It wants one place after the other, and goes on by the word that stood
/// there.
pub trait Walker: Drop {
    ghost way: { Way Self };

    /// The place that it loads next; None where it is at its end, or was refused.
    fn wanted(&self) -> Option<u64>
        ensures { result ≡ way.wants self.now };

    /// Goes on by the word that stood at the place that it wanted.
    fn feed(&mut self, word: Word)
        ensures { self.new ≡ way.fed self.old word };

    /// Whether it follows links: then its next two loads are made in one turn, and a third where it `turns_aside`
    /// behind them. This serves speed alone; a walk is the same whatever is answered.
    fn is_on_links(&self) -> bool {
        false
    }

    /// Whether it makes a third load at this node.
    fn turns_aside(&self) -> bool {
        false
    }

    /// Whether it was refused.
    fn is_refused(&self) -> bool
        ensures { result ≡ way.refused self.now };

    /// Whether this place is a mark of its structure.
    fn is_mark(&self, place: Place) -> bool
        ensures { result ≡ (way.planning self.now).is_mark place };

    /// The thunk for the request with this number, once the walk is whole.
    fn thunk(&self, number: u32) -> Thunk
        ensures { result ≡ way.thunk self.now number };
}

/// Whether the walker loads this place next.
fn wants<W: Walker>(walker: &W, place: Place) -> bool
    ensures { result ≡ is_next (W.way.wants walker.now) place }
{
    match walker.wanted() {
        Some(wanted) => wanted == u64::from(place),
        None => false,
    }
}

/// The walk in these readings: goes on by each one that it wants, up to the first that it doesn't want.
pub fn follow<W: Walker>(walker: W, readings: &[(Place, Word)]) -> W
    ensures { result ≡ followed W.way walker readings.now }
{
    let mut walker = walker;
    for &(place, word) in readings {
        if !wants(&walker, place) {
            return walker;
        }
        walker.feed(word);
    }
    walker
}
