//! Values and checks, by the words that were agreed on.
ghost use Rattle.std.specs.Prelude.{◌≡◌, ℕ, ◌+◌, ◌≤◌, ◌++◌, ◌==◌, cond, length, slice_index};
ghost use Rattle.idem_cell.specs.machine_states.specs.body_terms.specs.Act.{IsLogged};
ghost use Rattle.idem_cell.specs.machine_states.specs.body_terms.specs.Line.{Registers, source_of};
ghost use Rattle.idem_cell.specs.machine_states.specs.body_terms.specs.Run.{source_value};
ghost use Rattle.idem_cell.specs.machine_states.specs.body_terms.specs.Word.{version_of};
ghost use Rattle.idem_cell.specs.machine_states.specs.body_terms.specs.declared.value.Value.TheVariants.{Of};
ghost use Rattle.idem_cell.specs.machine_states.specs.body_terms.specs.declared.outcome.Outcome.TheVariants.{Stale, Spent};
ghost use Rattle.nested_lock.specs.Answers.{outcome_by};
ghost use Rattle.section_runs.specs.Registers.{AreKept, IsSmall};
ghost use Rattle.section_runs.specs.Takes.{passed_by, words_of};
ghost use Rattle.section_runs.specs.declared.passed.Passed.TheVariants.{On, Left};

use crate::passed::Passed;
use crate::registers::Places;
use idem_cell::body_terms::{Outcome, Place, Refused, Trail, Value, Word};
use nested_lock::TakeEnd;

/// The number that a value stands for.
pub fn value_in(kept: &Places, trail: &Trail, value: Value) -> u32
    requires { (g : Registers) × AreKept kept.now g × IsLogged g (length trail.now.words) value × IsSmall value }
    ensures { (g : Registers) → AreKept kept.now g → result ≡ source_value trail.now.words (source_of g value) }
{
    match value {
        Value::Const(number) => number,
        Value::Of(reg) | Value::Made(reg) => trail.word(kept.logs[reg as usize] as u32).value(),
    }
}

/// The outcome of a Want of this word in this register, or that the run goes on.
pub fn wanted(kept: &Places, trail: &Trail, reg: u8, expected: Word) -> Passed
    requires { (g : Registers) × AreKept kept.now g × IsLogged g (length trail.now.words) (Of reg) × (reg ≤ 15) }
    ensures { (g : Registers) → AreKept kept.now g
        → let read = slice_index trail.now.words (g.log reg) in result ≡ cond (read == expected) On
        (Left (Stale (g.place reg) expected read)) }
{
    let place = kept.places[reg as usize];
    let read = trail.word(kept.logs[reg as usize] as u32);
    if read == expected {
        Passed::On
    } else {
        Passed::Left(Outcome::Stale {
            place,
            expected,
            read,
        })
    }
}

/// The outcome of a Fresh of this register, or that the run goes on.
pub fn tested(kept: &Places, trail: &Trail, reg: u8, version_max: u32) -> Passed
    requires { (g : Registers) × AreKept kept.now g × IsLogged g (length trail.now.words) (Of reg) × (reg ≤ 15) }
    ensures { (g : Registers) → AreKept kept.now g
        → let read = slice_index trail.now.words (g.log reg) in result ≡ cond (version_of read == version_max)
        (Left (Spent (g.place reg) read)) On }
{
    let place = kept.places[reg as usize];
    let read = trail.word(kept.logs[reg as usize] as u32);
    if read.version() == version_max {
        Passed::Left(Outcome::Spent(place, read))
    } else {
        Passed::On
    }
}

/// The outcome of a Take of this lock that was refused so.
fn refused(place: Place, refused: &Refused) -> Outcome
    ensures { result ≡ outcome_by place refused.now }
{
    match *refused {
        Refused::Busy(read) => Outcome::Busy(place, read),
        Refused::Stale { expected, read } => Outcome::Stale {
            place,
            expected,
            read,
        },
        Refused::Spent(read) => Outcome::Spent(place, read),
    }
}

/// The outcome of a Take of this lock that ended so, or that the run goes on.
pub fn taken(place: Place, end: &TakeEnd) -> Passed
    ensures { result ≡ passed_by place end.now.answer }
{
    match &end.answer {
        Ok(_) => Passed::On,
        Err(why) => Passed::Left(refused(place, why)),
    }
}

/// Adds the words that a Take agreed on.
pub fn agree_on(end: &TakeEnd, trail: &mut Trail)
    requires { length trail.old.words + 2 ≤ 64 }
    ensures words { trail.new.words ≡ trail.old.words ++ words_of end.now }
    ensures late { trail.new.late ≡ trail.old.late }
{
    trail.agree(end.first.bits());
    if let Some(second) = end.second {
        trail.agree(second.bits());
    }
}
