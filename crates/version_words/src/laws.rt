//! What the types of this crate say, as contracts.
ghost use Rattle.machine_states.specs.table_words.specs.Limits.{IsWithinLimits};
ghost use Rattle.machine_invariant.specs.After.{AreAllowed};
ghost use Rattle.version_words.specs.TableState.{AreShown};

use crate::table::FlockTable;
use crate::words::Words;
use machine_states::structure_laws::Structure;

/// The words of a closed table are those of a state of the machine that enabled events lead to, in which each worker
/// was joined. The layout is within the limits, and the requests are allowed.
pub fn words_are_reached<S: Structure>(words: &Words<S>)
    ensures shown { AreShown (S.meaning words.now.structure) words.now.layout words.now.requests words.now.words }
    ensures limits { IsWithinLimits words.now.layout }
    ensures requests { AreAllowed words.now.requests }
{
    let _ = &words.closed;
}

/// What every table has: its layout is within the limits, and its requests are allowed. So what is proved of the states
/// that the machine reaches within these limits holds of the state that a step shows.
pub fn table_is_allowed<S: Structure>(table: &FlockTable<S>)
    ensures limits { IsWithinLimits table.now.layout }
    ensures requests { AreAllowed table.now.requests }
{
    let _ = &table.setup;
}
