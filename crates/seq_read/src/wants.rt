//! What a body wants of a cell that it loads.
ghost use Rattle.std.specs.Prelude.{◌≡◌, ◌≢◌, ℕ, None, [], ◌∷◌, ◌++◌, false, List, position, IfSome};
ghost use Rattle.std.specs.List.{list_any};
ghost use Rattle.machine_states.specs.body_terms.specs.declared.step.Step.{Step as Action};
ghost use Rattle.seq_read.specs.declared.cells.Loaded.{Loaded as Cell};
ghost use Rattle.seq_read.specs.Wants.{is_missed, IsMiss, IsAmong, WantOne, IsTested};

use crate::cells::Loaded;
use caller_facts::lock_walks::WantedCell;
use machine_states::body_terms::{Place, Step, Word};

/// A word that a body wants, and another one that was found at its place.
#[derive(Clone, Copy, Debug, PartialEq, Eq)]
pub struct Missed {
    pub place: Place,
    pub expected: Word,
    pub read: Word,
}

/// Whether this step is a Want of the cell's register, for another word than was found.
#[inline(always)]
fn is_missed(cell: &Loaded, step: &Step) -> bool
    ensures { result ≡ is_missed (cell.now ∷ []) step.now }
{
    match *step {
        Step::Want { reg, word } => cell.into == reg && cell.word != word.bits(),
        _ => false,
    }
}

/// What this step wanted of the cell, where another word was found.
fn missed_by(cell: &Loaded, step: &Step) -> Option<Missed>
    ensures some { IfSome result (λ x. IsMiss (cell.now ∷ []) step.now x.place x.expected x.read) }
    ensures none { result ≡ None → is_missed (cell.now ∷ []) step.now ≡ false }
{
    let Step::Want { reg, word } = *step else {
        return None;
    };
    if cell.into == reg && cell.word != word.bits() {
        Some(Missed {
            place: cell.place,
            expected: word,
            read: Word::from_bits(cell.word),
        })
    } else {
        None
    }
}

/// Where the first of these steps stands that wanted another word of the cell than was found, if one did.
#[inline(always)]
fn find_missed(steps: &[Step], cell: &Loaded) -> Option<usize>
    ensures { result ≡ position (is_missed (cell.now ∷ [])) steps.now }
{
    steps.iter().position(|step| is_missed(cell, step))
}

/// What the first of these steps wanted of the cell for which another word was found, if there is one.
#[inline(always)]
fn first_missed(steps: &[Step], cell: &Loaded) -> Option<Missed>
    ensures some { IfSome result (λ x. (step : Action) × IsAmong steps.now step
        × IsMiss (cell.now ∷ []) step x.place x.expected x.read) }
    ensures none { result ≡ None → list_any (is_missed (cell.now ∷ [])) steps.now ≡ false }
{
    match find_missed(steps, cell) {
        Some(at) => missed_by(cell, &steps[at]),
        None => None,
    }
}

/// What these steps missed, with one more cell.
#[inline(always)]
pub fn missed_with(missed: Option<Missed>, steps: &[Step], cell: &Loaded) -> Option<Missed>
    ensures { (xs : List Cell) → IsTested steps.now xs missed → IsTested steps.now (xs ++ cell.now ∷ []) result }
{
    match missed {
        Some(first) => Some(first),
        None => first_missed(steps, cell),
    }
}

/// What was missed of a cell, of which one word is wanted and this one was found.
#[inline(always)]
fn missed_of(wanted: &WantedCell, found: Word) -> Option<Missed>
    ensures some { IfSome result (λ x. (x.place ≡ wanted.now.place) × (x.expected ≡ wanted.now.word)
        × (x.read ≡ found) × (wanted.now.word ≢ found)) }
    ensures none { result ≡ None → found ≡ wanted.now.word }
{
    if found == wanted.word {
        return None;
    }
    Some(Missed {
        place: wanted.place,
        expected: wanted.word,
        read: found,
    })
}

/// What was missed, with one more cell, whose register is wanted once.
#[inline(always)]
pub fn missed_behind(missed: Option<Missed>, wanted: &WantedCell, found: Word) -> Option<Missed>
    ensures { (steps : List Action) (reg : ℕ) (xs : List Cell) → WantOne steps reg wanted.now.word
        → IsTested steps xs missed
        → IsTested steps (xs ++ record { place = wanted.now.place; into = reg; word = found } ∷ []) result }
{
    match missed {
        Some(first) => Some(first),
        None => missed_of(wanted, found),
    }
}
