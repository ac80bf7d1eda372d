//! Refusals as answers of an attempt.
ghost use Rattle.std.specs.Prelude.{◌≡◌};
ghost use Rattle.attempts.specs.Course.{of_plan, of_refusal, of_outcome};

use crate::answers::Attempt;
use caller_facts::try_lock::Planned;
use machine_states::body_terms::{Outcome, Place, Refused};

/// A refused plan as an attempt's answer.
pub fn plan_refused(planned: Planned) -> Attempt
    ensures { result ≡ of_plan planned }
{
    match planned {
        Planned::Busy(place, word) => Attempt::Busy { place, word },
        Planned::Spent(place, word) => Attempt::Spent { place, word },
        Planned::Stale {
            place,
            expected,
            read,
        } => Attempt::Stale {
            place,
            expected,
            read,
        },
        Planned::Far { loads } => Attempt::Far { loads },
        Planned::Thunk(_) | Planned::Halted => Attempt::Halted,
    }
}

/// A refused publication at this lock as an attempt's answer.
pub fn lock_refused(place: Place, refused: Refused) -> Attempt
    ensures { result ≡ of_refusal place refused }
{
    match refused {
        Refused::Busy(word) => Attempt::Busy { place, word },
        Refused::Stale { expected, read } => Attempt::Stale {
            place,
            expected,
            read,
        },
        Refused::Spent(word) => Attempt::Spent { place, word },
    }
}

/// The outcome of a section that left as an attempt's answer.
pub fn section_left(outcome: Outcome) -> Attempt
    ensures { result ≡ of_outcome outcome }
{
    match outcome {
        Outcome::Busy(place, word) => Attempt::Busy { place, word },
        Outcome::Stale {
            place,
            expected,
            read,
        } => Attempt::Stale {
            place,
            expected,
            read,
        },
        Outcome::Spent(place, word) => Attempt::Spent { place, word },
        Outcome::Answered(_) => Attempt::Halted,
    }
}
