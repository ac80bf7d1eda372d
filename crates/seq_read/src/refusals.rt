//! Refusals as answers of a read.
ghost use Rattle.std.specs.Prelude.{◌≡◌};
ghost use Rattle.seq_read.specs.Course.{read_of, of_plan, of_lock};

use crate::answers::{Looked, Read};
use caller_facts::try_lock::Planned;
use machine_states::body_terms::{Thunk, Word};

/// A refused plan as a read's answer.
pub fn plan_refused(planned: Planned) -> Read
    ensures { result ≡ of_plan planned }
{
    match planned {
        Planned::Busy(place, word) => Read::Busy { place, word },
        Planned::Spent(place, word) => Read::Spent { place, word },
        Planned::Stale {
            place,
            expected,
            read,
        } => Read::Stale {
            place,
            expected,
            read,
        },
        Planned::Far { loads } => Read::Far { loads },
        Planned::Thunk(_) | Planned::Halted => Read::Halted,
    }
}

/// Another word of the thunk's lock than that of the plan as what a look came to.
pub fn lock_moved(thunk: &Thunk, word: Word) -> Looked
    ensures { read_of result ≡ of_lock thunk.now word }
{
    if word.value() == 0 {
        Looked::Stale {
            place: thunk.lock,
            expected: thunk.word,
            read: word,
        }
    } else {
        Looked::Busy {
            place: thunk.lock,
            word,
        }
    }
}
