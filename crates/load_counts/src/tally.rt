// The counts of the replies in the words of a closed table.
ghost use Rattle.std.specs.Prelude.{◌≡◌, true, IfOk, length};
ghost use Rattle.run_reports.specs.closed_words.specs.Histories.{HoldsNoLock};
ghost use Rattle.load_counts.specs.Tallies.{IsAlone, IsTally};

use crate::{
    Counts, count_replies, count_unserved, generated_traces_are_apart,
    traces_apart_are_answered_alone,
};
use run_reports::closed_words::closed_words_have_a_history;
use run_reports::closed_words::version_words::{Words, words_are_reached};
use run_reports::entries_of;
use std::alloc::{AllocError, Global};
use structure_laws::Structure;

/// What the entries of a closed table's requests come to.
#[derive(Clone, Copy, Debug, PartialEq, Eq)]
pub struct Tally {
    /// How often each kind of reply came.
    pub counts: Counts,
    /// How many requests have no entry.
    pub unserved: u32,
}

/// Counts the replies of all requests of the table, by its words.
///
/// `count` is how many requests the table has. Its structure serves a map, and no lock in its words names a descriptor.
/// Where the requests were generated so that each trace has keys of its own and each has an entry, the counts are those
/// of each trace served by itself on a plain map. The Err is want of memory.
pub fn tally_words<S: Structure>(
    alloc: Global,
    words: &Words<S>,
    count: u32,
) -> Result<Tally, AllocError>
    requires count { count ≡ length words.now.requests }
    requires map { (S.meaning words.now.structure).is_map ≡ true }
    requires free { HoldsNoLock (S.meaning words.now.structure) words.now }
    ensures tally { IfOk result (IsTally (S.meaning words.now.structure) words.now) }
    ensures alone { IfOk result (IsAlone (S.meaning words.now.structure) words.now) }
{
    words_are_reached(words);
    closed_words_have_a_history(words);
    traces_apart_are_answered_alone();
    generated_traces_are_apart();
    let entries = entries_of(alloc, words, count)?;
    Ok(Tally {
        counts: count_replies(&entries),
        unserved: count_unserved(&entries),
    })
}
