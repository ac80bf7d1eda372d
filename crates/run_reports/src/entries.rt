//! The entries of the requests of a closed table.
ghost use Rattle.std.specs.Prelude.{◌≡◌, ◌<◌, true, IfOk, length};
ghost use Rattle.closed_words.specs.Histories.{HoldsNoLock};
ghost use Rattle.run_reports.specs.Reports.{IsEntryOf, HaveEntries};

use closed_words::closed_words_have_a_history;
use closed_words::version_words::{Words, words_are_reached};
use history_orders::map_history::{Entry, Reply};
use std::alloc::{AllocError, Global};
use structure_laws::Structure;

/// The entry of the request with this number: its stamp and its reply, or none where its stamp word is 0.
fn entry_of<S: Structure>(words: &Words<S>, number: u32) -> Option<Entry>
    requires number { number < length words.now.requests }
    requires map { (S.meaning words.now.structure).is_map ≡ true }
    requires free { HoldsNoLock (S.meaning words.now.structure) words.now }
    ensures { IsEntryOf (S.meaning words.now.structure) words.now number result }
{
    words_are_reached(words);
    closed_words_have_a_history(words);
    let (stamp, word) = words.entry(number)?;
    match Reply::from_word(word) {
        Some(reply) => Some(Entry { stamp, reply }),
        None => unreachable!(),
    }
}

/// The entries of all requests of the table, in the order of their numbers.
///
/// `count` is how many requests the table has. Its structure serves a map, and no lock in its words names a
/// descriptor; so each request that has a stamp has its reply. The Err is want of memory.
pub fn entries_of<S: Structure>(
    alloc: Global,
    words: &Words<S>,
    count: u32,
) -> Result<Vec<Option<Entry>>, AllocError>
    requires count { count ≡ length words.now.requests }
    requires map { (S.meaning words.now.structure).is_map ≡ true }
    requires free { HoldsNoLock (S.meaning words.now.structure) words.now }
    ensures { IfOk result (λ entries. HaveEntries (S.meaning words.now.structure) words.now entries.items) }
{
    let mut entries = Vec::with_capacity(alloc, count as usize)?;
    for number in 0..count {
        entries.push(entry_of(words, number))?;
    }
    Ok(entries)
}
