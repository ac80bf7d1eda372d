//! The laws of the history, each on a contract.
ghost use Rattle.std.specs.Prelude.{◌≡◌, false, List};
ghost use Rattle.history_core.specs.State.{Requests, HistoryState};
ghost use Rattle.history_core.specs.Events.{Event, Enabled, after};
ghost use Rattle.history_core.specs.Sound.{IsSound};
ghost use Rattle.history_core.specs.Schedules.{first_state, AllEnabled, after_all};
ghost use Rattle.history_core.specs.Legal.{HistoryIsLegal, ClockStands, KnowledgeStands, ReadsStand, StampsRise, IsClosed, AreAllDone, HasNoReads, is_look, WordsStand};
ghost use Rattle.history_core.specs.RealTime.{EventsKeepRealTime, PublicationsAsk};
ghost use Rattle.history_core.specs.Frame.{IsSame};
ghost use Rattle.history_core.specs.Made.{IsMade, IsMadeWithReads};

/// Every enabled event leads from a state that meets the invariant to one that meets it.
pub fn events_keep_the_invariant()
    ensures { (c : Requests) (w : HistoryState) (e : Event) → Enabled c w e → IsSound c w → IsSound c (after c w e) }
{}

/// Every list of enabled events leads from the first state to one that meets the invariant.
pub fn schedules_meet_the_invariant()
    ensures { (c : Requests) (es : List Event) → AllEnabled c first_state es → IsSound c (after_all c first_state es) }
{}

/// After every list of enabled events the stamped requests, by stamp and then by number, are a legal
/// history: a plain map that serves them in this order gives the replies. Stamps never fall along a trace, and two
/// equal ones are odd, those of reads without a lock. It is the only history of these stamp words.
pub fn histories_are_legal()
    ensures { (c : Requests) (es : List Event) → AllEnabled c first_state es
        → HistoryIsLegal c (after_all c first_state es) }
{}

/// The clock is at least half of a section's stamp once it was raised for it, and at most the number of
/// stamped requests. A run's clock is loaded after its section's publication and before its stamp.
pub fn the_clock_bounds_the_stamps()
    ensures { (c : Requests) (w : HistoryState) → IsSound c w → ClockStands c w }
{}

/// The history is linearizable (Herlihy and Wing, Linearizability, 1990): a request with a reply comes before each
/// request that isn't asked yet in that state, once both have their stamps, whatever events come next. Its stamp is
/// smaller, but for two reads with one stamp, whose order plays no part (`reads_stand`). A request for which a section
/// may be published, and for which its worker hasn't looked, isn't asked yet.
pub fn the_history_is_linearizable()
    ensures order { (c : Requests) → EventsKeepRealTime c }
    ensures asked { (c : Requests) → PublicationsAsk c }
{}

/// Reads without a lock. A section's stamp is even. An entry with an odd one changes nothing at its place, and two
/// with one odd stamp have the same map there. The clock is at least half of each odd stamp. A worker that has written
/// a read's reply and not yet its stamp has no section on the way, and that request of its own has no stamp.
pub fn reads_stand()
    ensures { (c : Requests) (w : HistoryState) → IsSound c w → ReadsStand c w }
{}

/// Where no worker has looked without a lock and each stamp is even, as at first, every event but a look keeps that.
/// There stamps rise strictly along a trace, and each reply is that of a stamped request.
pub fn stamps_rise_without_reads()
    ensures first { HasNoReads first_state }
    ensures events { (c : Requests) (w : HistoryState) (e : Event) → is_look e ≡ false → HasNoReads w
        → HasNoReads (after c w e) }
    ensures rise { (c : Requests) (w : HistoryState) → IsSound c w → HasNoReads w → StampsRise c w }
{}

/// Who knows both words of a request knows that it stands once in the history, with that stamp and the
/// reply at its place. A section's stamp is above those of all that its publisher knew when it published
/// it. A stamped request is known to its worker, or is that of the section that the worker has published
/// and not yet run to its end.
pub fn what_is_known_stands()
    ensures { (c : Requests) (w : HistoryState) → IsSound c w → KnowledgeStands c w }
{}

/// Where every section is done, each stamped request has its reply word, which is the reply at its place.
pub fn closed_histories_are_answered()
    ensures { (c : Requests) (w : HistoryState) → IsSound c w → AreAllDone c w → IsClosed c w }
{}

/// No event changes a stamp, a reply, what is known, or an entry of the history, once it is there. The
/// clock never falls.
pub fn words_stand()
    ensures { (c : Requests) (w : HistoryState) (e : Event) → WordsStand w (after c w e) }
{}

/// A state that differs in no field meets the invariant.
pub fn changes_elsewhere_keep_the_invariant()
    ensures { (c : Requests) (w w' : HistoryState) → IsSame w w' → IsSound c w → IsSound c w' }
{}

/// An example in which the events may come: a worker loads the clock and pauses, another one serves two
/// requests, and the first one's stamp, which is written last, stands first in the history.
pub fn a_history_is_made()
    ensures { IsMade }
{}

/// An example with reads: a worker looks up a key without a lock, adds a pair there, and looks it up twice. The two
/// last reads have one stamp.
pub fn reads_are_made()
    ensures { IsMadeWithReads }
{}
