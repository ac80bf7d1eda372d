//! The laws of agreement, each on a contract.
ghost use Rattle.std.specs.Prelude.{◌≡◌, ◌≢◌, ◌<◌, ◌⊎◌, ℕ, true, List, Some};
ghost use Rattle.agreement_core.specs.State.{CellRules, AgreementState, section_of};
ghost use Rattle.agreement_core.specs.Events.{Event, Release, HasTaken, Enabled, after};
ghost use Rattle.agreement_core.specs.Sound.{IsOf, IsSound};
ghost use Rattle.agreement_core.specs.Schedules.{IsFirst, first_state, AllEnabled, after_all};
ghost use Rattle.agreement_core.specs.Trails.{RunsAgree, HoldsNothing};
ghost use Rattle.agreement_core.specs.Rising.{RiseByOne, IsNotFuture};
ghost use Rattle.agreement_core.specs.Continuing.{SectionsGoOn, RecordsStand, EntriesStand, DoneStand, EndsAreOld};
ghost use Rattle.agreement_core.specs.Standing.{CellsStand, LocksStand, TakesStand, IsDoneLate};
ghost use Rattle.agreement_core.specs.Late.{stepper, IsLate, IsUnchanged, LocksStay, LocksLeave};
ghost use Rattle.agreement_core.specs.Frame.{IsSame};
ghost use Rattle.section_lines.specs.structure_laws.specs.body_terms.specs.Run.{Run};
ghost use Rattle.section_lines.specs.structure_laws.specs.body_terms.specs.declared.step.Step.{Step};
ghost use Rattle.agreement_core.specs.PlainRuns.{IsOfBody, chosen, IsOver, start_over, FollowsPlainRun};
ghost use Rattle.agreement_core.specs.Helped.{IsHelped};
ghost use Rattle.agreement_core.specs.History.{History, no_history, noted, noted_all, IsExact, HasAnswered, HasLeft, HappenedOnce, NothingHappened, Lasts};
ghost use Rattle.agreement_core.specs.Closed.{ClosedStay, NumbersStay};

/// Every enabled event leads from a state that meets the invariant to one that meets it.
pub fn events_keep_the_invariant()
    ensures { (c : CellRules) (w : AgreementState) (e : Event) → Enabled c w e → IsSound c w → IsSound c (after w e) }
{}

/// Every list of enabled events leads from the first state to one that meets the invariant.
pub fn schedules_meet_the_invariant()
    ensures { (c : CellRules) (cells : ℕ → ℕ) (es : List Event) → IsFirst c cells
        → AllEnabled c (first_state cells) es → IsSound c (after_all c (first_state cells) es) }
{}

/// After every list of enabled events each section's log is agreed words and then zeros, the trail of each
/// of its runs is a prefix of these words, the trail of a run that came to its end is all of them, and any
/// two such trails of one section are equal. Where a run came to its end, the section is done and no lock
/// names it.
pub fn runs_agree()
    ensures over { (c : CellRules) (w : AgreementState) (r i d : ℕ) → IsSound c w → i < w.finishes r → w.used d ≡ true
        → IsOf (w.finished r i) (w.section d) → HoldsNothing c w d }
    ensures agree { (c : CellRules) (cells : ℕ → ℕ) (es : List Event) → IsFirst c cells
        → AllEnabled c (first_state cells) es → RunsAgree (after_all c (first_state cells) es) }
{}

/// An agreed word stands until the section's descriptor is free again, and so does all else that the
/// section is; a section that is done stays done, and its log and how far its runs have come stand. What is
/// kept of a run that came to its end stands for good, and so does a stamp word and a reply word that isn't
/// 0. A section of which a run came to its end isn't published again.
pub fn agreed_words_stand()
    ensures entries { (w : AgreementState) (e : Event) → EntriesStand w (after w e) }
    ensures records { (w : AgreementState) (e : Event) → RecordsStand w (after w e) }
    ensures sections { (c : CellRules) (w : AgreementState) (e : Event) → Enabled c w e → SectionsGoOn w (after w e) }
    ensures done { (c : CellRules) (w : AgreementState) (e : Event) → Enabled c w e → IsSound c w
        → DoneStand w (after w e) }
    ensures ended { (c : CellRules) (w : AgreementState) (e : Event) → Enabled c w e → IsSound c w
        → EndsAreOld w (after w e) }
{}

/// A step of a run that is behind the furthest one of its section changes no cell, clock, stamp or reply,
/// and nothing in any section.
pub fn late_runs_change_nothing()
    ensures { (c : CellRules) (w : AgreementState) (e : Event) (r : ℕ) → Enabled c w e → IsSound c w
        → stepper e ≡ Some r
        → IsLate w r → IsUnchanged w (after w e) }
{}

/// An event changes no cell, or raises its version by exactly one. A word that was read isn't from the future.
pub fn versions_rise_by_one()
    ensures rise { (c : CellRules) (w : AgreementState) (e : Event) → Enabled c w e → IsSound c w
        → RiseByOne w (after w e) }
    ensures read { (c : CellRules) (w : AgreementState) → IsSound c w → IsNotFuture w }
{}

/// Until a section is done, a cell that it has loaded holds the agreed word, or the word that it has stored
/// there. What it has stored stands from then on, or a later version.
pub fn loaded_cells_stand()
    ensures { (c : CellRules) (w : AgreementState) (d : ℕ) → IsSound c w → w.used d ≡ true → CellsStand w d }
{}

/// A lock word that names a descriptor names a section that is published and isn't retired, with the held
/// word of a lock of that section. A section is done only behind the exchanges of its line. A lock that
/// names a section stands until a run of that section releases it. No event changes a lock that an open
/// section holds, so only a run that has set it done releases a lock.
pub fn locks_name_live_sections()
    ensures named { (c : CellRules) (w : AgreementState) → IsSound c w → LocksStand c w }
    ensures done { (c : CellRules) (w : AgreementState) (d : ℕ) → IsSound c w → w.used d ≡ true → (w.section d).done ≢ 0
        → IsDoneLate c w d }
    ensures leave { (c : CellRules) (w : AgreementState) (e : Event) → Enabled c w e → IsSound c w
        → LocksLeave c w e (after w e) }
    ensures stay { (c : CellRules) (w : AgreementState) (e : Event) → Enabled c w e → IsSound c w
        → LocksStay c w (after w e) }
    ensures released { (c : CellRules) (w : AgreementState) (r place word : ℕ) → IsSound c w
        → Enabled c w (Release r place word)
        → (section_of w r).done ≢ 0 }
{}

/// Once a Take's outcome is agreed, the lock is past the word that was expected. Where the outcome is that
/// the section holds the lock, it does so until it is done; where it is another, the lock doesn't name the
/// section.
pub fn takes_agree()
    ensures { (c : CellRules) (w : AgreementState) (d : ℕ) → IsSound c w → w.used d ≡ true → TakesStand c w d }
{}

/// Take the plain run of a section's body, with the choices that the section's log tells, over cells in
/// which each cell that the section has loaded holds the agreed word. What was agreed is that run's trail
/// as far as the runs of the section have come, the whole run's trail begins with it, and once the section
/// is done it is the whole run's trail, and the run ends as the section did. Such cells are there.
pub fn logs_follow_plain_runs()
    ensures start { (c : CellRules) (w : AgreementState) (d : ℕ) → IsSound c w → w.used d ≡ true
        → IsOver (w.section d) (start_over (w.section d)) }
    ensures follows { (c : CellRules) (w : AgreementState) (d : ℕ) (body : List Step) (fixed_cells : ℕ)
        (first : ℕ → ℕ → ℕ) (clock : ℕ) (start : Run)
        → IsSound c w → w.used d ≡ true → IsOfBody (w.section d) body → IsOver (w.section d) start
        → FollowsPlainRun (w.section d) body (chosen c d (w.section d) fixed_cells first clock) start }
{}

/// After every list of enabled events the history is exact. A section that is done has answered or left.
/// Where it answered, each exchange of its line moved its cell in exactly one event, from the agreed word
/// to the new one, and its request's stamp and reply were written by exactly one event each. Where it left,
/// no event of its runs moved a cell or wrote one of these.
pub fn effects_happen_once()
    ensures exact { (c : CellRules) (cells : ℕ → ℕ) (es : List Event) → IsFirst c cells
        → AllEnabled c (first_state cells) es
        → IsExact (after_all c (first_state cells) es) (noted_all (first_state cells) no_history es) }
    ensures over { (c : CellRules) (w : AgreementState) (d : ℕ) → IsSound c w → w.used d ≡ true → (w.section d).done ≢ 0
        → HasAnswered (w.section d) ⊎ HasLeft (w.section d) }
    ensures answered { (c : CellRules) (w : AgreementState) (h : History) (d : ℕ) → IsSound c w
        → IsExact w h → w.used d ≡ true
        → HasAnswered (w.section d) → HappenedOnce w h d }
    ensures left { (c : CellRules) (w : AgreementState) (h : History) (d : ℕ) → IsSound c w → IsExact w h
        → w.used d ≡ true
        → HasLeft (w.section d) → NothingHappened h (h.section d) }
{}

/// What was changed stays: an event adds to the history, and changes nothing that stands in it. It adds
/// only to what open sections changed, so nothing to what was changed by a section that is done, or whose
/// descriptor is free again. Each section has its own number: a publication gives the next one.
pub fn the_history_lasts()
    ensures stays { (c : CellRules) (w : AgreementState) (h : History) (e : Event) → Enabled c w e
        → IsSound c w → IsExact w h
        → Lasts h (noted w h e) }
    ensures closed { (c : CellRules) (w : AgreementState) (h : History) (e : Event) → Enabled c w e
        → IsSound c w → IsExact w h
        → ClosedStay w (after w e) h (noted w h e) }
    ensures numbers { (c : CellRules) (w : AgreementState) (h : History) (e : Event) → Enabled c w e
        → NumbersStay w (after w e) h (noted w h e) }
{}

/// A state that differs in no field meets the invariant and keeps the history exact.
pub fn changes_elsewhere_keep_the_invariant()
    ensures sound { (c : CellRules) (w w' : AgreementState) → IsSame w w' → IsSound c w → IsSound c w' }
    ensures exact { (w w' : AgreementState) (h : History) → IsSame w w' → IsExact w h → IsExact w' h }
{}

/// An example in which the events may come: a section is run by two runners, one of them late, and its
/// effects come once.
pub fn a_section_is_helped()
    ensures { IsHelped }
{}
