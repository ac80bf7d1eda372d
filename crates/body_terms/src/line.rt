//! A body as its line of atomic steps.
ghost use Rattle.std.specs.Prelude.{◌≡◌, ℕ, ◌<◌, ◌≤◌, length, slice_index_or};
ghost use Rattle.body_terms.specs.Line.{Registers, registers_after, registers_before, source_of, log_words, micro_count, micros, line, micro_at};
ghost use Rattle.body_terms.specs.declared.step.Step.TheVariants.{Take, Make, Stamp};
ghost use Rattle.body_terms.specs.declared.micro.Micro.TheVariants.{End};

use crate::body::Body;
use crate::micro::{Micro, Source};
use crate::step::Step;
use crate::value::{Init, Value};
use crate::word::{Place, Word};

/// What the steps before it made of a register.
#[derive(Clone, Copy, Debug, PartialEq, Eq)]
pub struct Register {
    /// The place from which it was loaded, and 0 where it wasn't.
    pub place: Place,
    /// The place in the log of its word, and 0 where it has none.
    pub log: u32,
}

/// How many atomic steps a step has, its checks included.
fn micro_count(step: &Step) -> u32
    ensures exact { result ≡ micro_count step.now }
    ensures few { result ≤ 11 }
{
    match step {
        Step::Load { .. } | Step::Retire { .. } => 2,
        Step::Want { .. } | Step::Fresh { .. } | Step::Store { .. } | Step::Answer { .. } => 1,
        Step::Take { .. } => 7,
        Step::Make { .. } => 11,
        Step::Stamp => 3,
    }
}

/// How many words a step commits.
fn log_words(step: &Step) -> u32
    ensures exact { result ≡ log_words step.now }
    ensures few { result ≤ 2 }
{
    match step {
        Step::Load { .. } | Step::Make { .. } | Step::Retire { .. } => 1,
        Step::Take { .. } => 2,
        _ => 0,
    }
}

/// A register after one more step, before which `count` words were committed.
fn register_after(step: &Step, reg: u8, register: Register, count: u32) -> Register
    ensures place { (g : Registers) → register.place ≡ g.place reg
        → result.place ≡ (registers_after g step.now).place reg }
    ensures log { (g : Registers) → register.log ≡ g.log reg → count ≡ g.count
        → result.log ≡ (registers_after g step.now).log reg }
{
    match *step {
        Step::Load { place, into } if into == reg => Register { place, log: count },
        Step::Make { init: _, into } if into == reg => Register {
            place: register.place,
            log: count,
        },
        _ => register,
    }
}

/// A register before step `n`.
pub fn register_at(steps: &[Step], n: usize, reg: u8) -> Register
    requires few { length steps.now ≤ 40 }
    requires within { n ≤ length steps.now }
    ensures place { result.place ≡ (registers_before steps.now n).place reg }
    ensures log { result.log ≡ (registers_before steps.now n).log reg }
{
    let mut register = Register { place: 0, log: 0 };
    let mut count = 0;
    for i in 0..n {
        let step = &steps[i];
        register = register_after(step, reg, register, count);
        count += log_words(step);
    }
    register
}

/// A value before step `n`, with its register resolved.
pub fn source(steps: &[Step], n: usize, value: Value) -> Source
    requires few { length steps.now ≤ 40 }
    requires within { n ≤ length steps.now }
    ensures { result ≡ source_of (registers_before steps.now n) value }
{
    match value {
        Value::Const(number) => Source::Fixed(number),
        Value::Of(reg) | Value::Made(reg) => Source::Agreed(register_at(steps, n, reg).log),
    }
}

/// Atomic step `part` of a `Take`.
fn take_micro(place: Place, word: Word, log: u32, part: u32) -> Micro
    requires small { log < 4294967295 }
    requires part { part < 7 }
    ensures { (g : Registers) → log ≡ g.count → result ≡ slice_index_or (micros g (Take place word)) part End }
{
    match part {
        0 => Micro::NestedLoad { place, log },
        1 => Micro::NestedCommit { place, log },
        2 => Micro::CheckFree { place, log, word },
        3 => Micro::NestedHold { place, word },
        4 => Micro::OutcomeLoad {
            place,
            log: log + 1,
        },
        5 => Micro::OutcomeCommit {
            place,
            log: log + 1,
        },
        _ => Micro::CheckHeld {
            place,
            log: log + 1,
            word,
        },
    }
}

/// Atomic step `part` of a `Make` that stands at step `n`: the cells are loaded and stored in turn.
fn make_micro(steps: &[Step], n: usize, init: Init, log: u32, part: u32) -> Micro
    requires few { length steps.now ≤ 40 }
    requires within { n ≤ length steps.now }
    requires part { part < 11 }
    ensures { log ≡ (registers_before steps.now n).count → (into : ℕ)
        → result ≡ slice_index_or (micros (registers_before steps.now n) (Make init into)) part End }
{
    let cell = part / 2;
    if cell == 5 {
        Micro::MakeCommit { log }
    } else if part % 2 == 0 {
        Micro::PrivateLoad { cell, log }
    } else {
        let value = source(steps, n, init.cells[cell as usize]);
        Micro::PrivateStore { cell, log, value }
    }
}

/// Atomic step `part` of a `Stamp`.
fn stamp_micro(part: u32) -> Micro
    requires { part < 3 }
    ensures { (g : Registers) → result ≡ slice_index_or (micros g Stamp) part End }
{
    match part {
        0 => Micro::ClockLoad,
        1 => Micro::StampExchange,
        _ => Micro::ClockRaise,
    }
}

/// Atomic step `part` of this step, which stands at step `n`, and before which `log` words were committed.
fn micro(steps: &[Step], n: usize, step: &Step, log: u32, part: u32) -> Micro
    requires few { length steps.now ≤ 40 }
    requires within { n ≤ length steps.now }
    requires small { log < 4294967295 }
    requires log { log ≡ (registers_before steps.now n).count }
    requires part { part < micro_count step.now }
    ensures { result ≡ slice_index_or (micros (registers_before steps.now n) step.now) part End }
{
    match *step {
        Step::Load { place, into: _ } if part == 0 => Micro::LoadCell { place, log },
        Step::Load { place, into: _ } => Micro::Commit { place, log },
        Step::Want { reg, word } => {
            let Register { place, log } = register_at(steps, n, reg);
            Micro::CheckWord { place, log, word }
        }
        Step::Fresh { reg } => {
            let Register { place, log } = register_at(steps, n, reg);
            Micro::CheckFresh { place, log }
        }
        Step::Take { place, word } => take_micro(place, word, log, part),
        Step::Make { init, into: _ } => make_micro(steps, n, init, log, part),
        Step::Stamp => stamp_micro(part),
        Step::Store { reg, value } => {
            let value = source(steps, n, value);
            let Register { place, log } = register_at(steps, n, reg);
            Micro::ExchangeCell { place, log, value }
        }
        Step::Retire { slot } if part == 0 => Micro::EpochForRetire { slot, log },
        Step::Retire { slot } => Micro::RetireCommit { slot, log },
        Step::Answer { reply } => Micro::ReplyExchange { reply },
    }
}

/// The atomic step at this place of the line of these steps.
fn micro_in(steps: &[Step], at: u32) -> Micro
    requires { length steps.now ≤ 40 }
    ensures { result ≡ micro_at (line steps.now) at }
{
    let mut begin = 0;
    let mut log = 0;
    for n in 0..steps.len() {
        let step = &steps[n];
        let count = micro_count(step);
        if at - begin < count {
            return micro(steps, n, step, log, at - begin);
        }
        begin += count;
        log += log_words(step);
    }
    Micro::End
}

/// The atomic step at this place of a body's line, and `End` past its last one.
pub fn micro_at(body: &Body, at: u32) -> Micro
    ensures { result ≡ micro_at (line body.now) at }
{
    micro_in(body.steps.as_slice(), at)
}
