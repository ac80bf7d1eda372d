//! One step of a run in one go.
ghost use Rattle.std.specs.Prelude.{◌≡◌, ℕ, ◌+◌, ◌^◌, ◌<◌, ◌≤◌, ◌∷◌, [], ◌++◌, All, Some, None, ◌==◌, cond, true, false, length, map, drop, slice_index};
ghost use Rattle.body_terms.specs.Line.{registers_before, source_of, log_words, micros};
ghost use Rattle.body_terms.specs.Word.{version_of, held_word};
ghost use Rattle.body_terms.specs.declared.outcome.Outcome.TheVariants.{Busy, Stale, Spent};
ghost use Rattle.body_terms.specs.Memory.{PlainMemory, cell_of};
ghost use Rattle.body_terms.specs.Run.{Setting, Run, source_value, ran};
ghost use Rattle.body_terms.specs.Act.{Shows, IsLogged, SlotFits, StoreFits, StepFits, StepSuits, filled};

use crate::memory::Memory;
use body_terms::{
    Init, Outcome, Place, Register, Source, Step, Trail, Value, Word, register_at, source,
};

/// The number that a value of step `n` stands for, by the words agreed so far.
fn value_at(steps: &[Step], n: usize, value: Value, trail: &Trail) -> u32
    requires few { length steps.now ≤ 40 }
    requires within { n ≤ length steps.now }
    requires logged { IsLogged (registers_before steps.now n) (length trail.now.words) value }
    ensures { result ≡ source_value trail.now.words (source_of (registers_before steps.now n) value) }
{
    match source(steps, n, value) {
        Source::Fixed(number) => number,
        Source::Agreed(log) => trail.word(log).value(),
    }
}

/// Fills the five cells of a node slot for the `Make` at step `n`.
fn fill_slot(steps: &[Step], n: usize, init: Init, trail: &Trail, memory: &mut Memory, slot: u32)
    requires few { length steps.now ≤ 40 }
    requires within { n ≤ length steps.now }
    requires logged { All (IsLogged (registers_before steps.now n) (length trail.now.words)) init.cells }
    requires cells { (cell : ℕ) → cell < 5 → cell_of memory.old.fixed_cells slot cell < length memory.old.cells }
    requires room { (cell : ℕ) → cell < 5
        → version_of (slice_index memory.old.cells (cell_of memory.old.fixed_cells slot cell)) + 1 < 2 ^ 32 }
    ensures { let values = map (λ value. source_value trail.now.words
        (source_of (registers_before steps.now n) value)) init.cells in
        memory.new
        ≡ record memory.old { cells = filled memory.old.fixed_cells slot values memory.old.cells 5 } }
{
    for cell in 0..5 {
        let value = value_at(steps, n, init.cells[cell as usize], trail);
        memory.fill(slot, cell, value);
    }
}

/// The outcome of a `Want` that read this word in place of the expected one, if they differ.
fn stale(place: Place, expected: Word, read: Word) -> Option<Outcome>
    ensures { result ≡ cond (read == expected) None (Some (Stale place expected read)) }
{
    (read != expected).then(|| Outcome::Stale {
        place,
        expected,
        read,
    })
}

/// The outcome of a `Fresh` that read this word, if it has the greatest version.
fn spent(place: Place, read: Word, version_max: u32) -> Option<Outcome>
    ensures { result ≡ cond (version_of read == version_max) (Some (Spent place read)) None }
{
    (read.version() == version_max).then(|| Outcome::Spent(place, read))
}

/// Takes a lock that is got, or leaves with the word that stands there.
fn take_lock(
    place: Place,
    word: Word,
    got: bool,
    memory: &Memory,
    trail: &mut Trail,
) -> Option<Outcome>
    requires within { place < length memory.now.cells }
    requires room { got ≡ true → version_of word + 1 < 2 ^ 32 }
    requires space { length trail.old.words + 2 ≤ 64 }
    ensures taken { got ≡ true
        → (result ≡ None) × (trail.new ≡ record trail.old {
          words = (trail.old.words ++ word ∷ [])
              ++ held_word 0 word ∷ [];
        }) }
    ensures refused { got ≡ false
        → let read = slice_index memory.now.cells place in
        (result ≡ Some (Busy place read)) × (trail.new ≡ record trail.old { words = trail.old.words ++ read ∷ [] }) }
{
    if got {
        trail.agree(word.bits());
        trail.agree(word.next(1).bits());
        None
    } else {
        let read = memory.word(place);
        trail.agree(read.bits());
        Some(Outcome::Busy(place, read))
    }
}

/// Makes a node from the next free slot, for the `Make` at step `n`.
fn make_node(steps: &[Step], n: usize, init: Init, memory: &mut Memory, trail: &mut Trail)
    requires few { length steps.now ≤ 40 }
    requires within { n ≤ length steps.now }
    requires slot { SlotFits memory.old }
    requires logged { All (IsLogged (registers_before steps.now n) (length trail.old.words)) init.cells }
    requires space { length trail.old.words < 64 }
    ensures memory { let values = map (λ value. source_value trail.old.words
        (source_of (registers_before steps.now n) value)) init.cells in
        memory.new ≡ record memory.old {
          cells = filled memory.old.fixed_cells (slice_index memory.old.free 0) values memory.old.cells 5;
          free = drop 1 memory.old.free;
        } }
    ensures trail { trail.new ≡ record trail.old {
      words = trail.old.words
          ++ (slice_index memory.old.free 0 + 1) ∷ [];
    } }
{
    let slot = memory.give_slot();
    fill_slot(steps, n, init, trail, memory, slot);
    trail.agree(slot as u64 + 1);
}

/// Makes this step, the body's step `n`, for this request, and gives the outcome where the run ends with it.
pub fn act(
    steps: &[Step],
    n: usize,
    step: &Step,
    request: u32,
    got: bool,
    memory: &mut Memory,
    trail: &mut Trail,
) -> Option<Outcome>
    requires few { length steps.now ≤ 40 }
    requires within { n ≤ length steps.now }
    requires fits { StepFits request memory.old trail.old.words (registers_before steps.now n) got step.now }
    requires space { length trail.old.words + log_words step.now ≤ 64 }
    ensures { (start : PlainMemory) (s : Setting) (run : Run) → let g = registers_before steps.now n in
        Shows request start run memory.old trail.old None → StepSuits s memory.old got g.count step.now
        → g.count ≡ length trail.old.words → request < length start.stamps → request < length start.replies
        → Shows request start (ran s run (micros g step.now)) memory.new trail.new result }
{
    match *step {
        Step::Load { place, into: _ } => {
            trail.agree(memory.word(place).bits());
            None
        }
        Step::Want { reg, word } => {
            let Register { place, log } = register_at(steps, n, reg);
            stale(place, word, trail.word(log))
        }
        Step::Fresh { reg } => {
            let Register { place, log } = register_at(steps, n, reg);
            spent(place, trail.word(log), memory.version_max)
        }
        Step::Take { place, word } => take_lock(place, word, got, memory, trail),
        Step::Make { init, into: _ } => {
            make_node(steps, n, init, memory, trail);
            None
        }
        Step::Stamp => {
            memory.stamp(request);
            None
        }
        Step::Store { reg, value } => {
            let Register { place, log } = register_at(steps, n, reg);
            let old = trail.word(log);
            let number = value_at(steps, n, value, trail);
            memory.exchange(place, old, number);
            None
        }
        Step::Retire { slot } => {
            trail.agree(slot as u64 + 1);
            memory.retire(slot);
            None
        }
        Step::Answer { reply } => {
            memory.answer(request, reply);
            Some(Outcome::Answered(reply))
        }
    }
}
