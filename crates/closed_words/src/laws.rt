//! The law of this crate, on a contract.
ghost use Rattle.closed_words.specs.Histories.{HaveHistory};

use machine_states::structure_laws::Structure;
use version_words::Words;

/// The words of a closed table, whatever its runners did: the requests that have an entry, by stamp and then by number,
/// are one legal history. Each reply word of theirs that isn't 0 is the reply at its place. Along each trace stamps
/// never fall, and two equal ones are odd, so of reads. Where no lock word names a descriptor, each request that has an
/// entry has its reply, and the cells stand for the history's final map.
///
/// (After Ben-David, Blelloch and Wei, Lock-free locks revisited, 2022.)
pub fn closed_words_have_a_history<S: Structure>(words: &Words<S>)
    ensures { HaveHistory (S.meaning words.now.structure) words.now }
{
    version_words::words_are_reached(words);
}
