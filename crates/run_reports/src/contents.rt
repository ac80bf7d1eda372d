//! What the cells of a closed table hold.
ghost use Rattle.std.specs.Prelude.{◌≡◌, ◌≤◌, true};
ghost use Rattle.std.specs.FinMap.{len};
ghost use Rattle.history_orders.specs.map_history.specs.Requests.{most_requests};
ghost use Rattle.history_orders.specs.map_history.specs.Replay.{Pairs};
ghost use Rattle.closed_words.specs.Histories.{HoldsNoLock};
ghost use Rattle.run_reports.specs.Reports.{HaveContents};

use closed_words::closed_words_have_a_history;
use closed_words::version_words::{Words, words_are_reached};
use structure_laws::Structure;

/// Where a structure serves a map, and no lock in its words names a descriptor, its cells hold a map, which has no
/// more pairs than a text may have requests.
pub fn contents_stand<S: Structure>(words: &Words<S>)
    requires map { (S.meaning words.now.structure).is_map ≡ true }
    requires free { HoldsNoLock (S.meaning words.now.structure) words.now }
    ensures { (pairs : Pairs) × HaveContents (S.meaning words.now.structure) words.now pairs
        × (len pairs ≤ most_requests) }
{
    words_are_reached(words);
    closed_words_have_a_history(words);
}
