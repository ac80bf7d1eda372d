//! The faults of a list of steps.
ghost use Rattle.std.specs.Prelude.{◌≡◌, ◌≤◌, ◌==◌, ◌||◌, length, count_by};
ghost use Rattle.std.specs.List.{list_any, list_all};
ghost use Rattle.body_terms.specs.Shape.{is_make, is_stamp, is_answer, used_values, set_registers};
ghost use Rattle.body_terms.specs.Line.{no_registers, registers_before};
ghost use Rattle.body_terms.specs.Fault.{loads_into, makes_into, tests_version, is_set, is_settable, phase_before, is_second, is_untested, stored_places, places_of, is_stored_again, step_fault, end_fault};

use crate::line::register_at;
use crate::misshape::Misshape;
use crate::step::Step;
use crate::value::Value;
use crate::word::Place;

/// Whether this step loads into this register.
fn loads_into(step: &Step, reg: u8) -> bool
    ensures { result ≡ loads_into reg step.now }
{
    match *step {
        Step::Load { place: _, into } => into == reg,
        _ => false,
    }
}

/// Whether this step makes a slot into this register.
fn makes_into(step: &Step, reg: u8) -> bool
    ensures { result ≡ makes_into reg step.now }
{
    match *step {
        Step::Make { init: _, into } => into == reg,
        _ => false,
    }
}

/// Whether this step tests this register's version.
fn tests_version(step: &Step, reg: u8) -> bool
    ensures { result ≡ tests_version reg step.now }
{
    match *step {
        Step::Fresh { reg: tested } => tested == reg,
        _ => false,
    }
}

/// Whether one of these steps loads into this register.
fn any_loads(steps: &[Step], reg: u8) -> bool
    ensures { result ≡ list_any (loads_into reg) steps.now }
{
    steps.iter().any(|step| loads_into(step, reg))
}

/// Whether one of these steps makes a slot into this register.
fn any_makes(steps: &[Step], reg: u8) -> bool
    ensures { result ≡ list_any (makes_into reg) steps.now }
{
    steps.iter().any(|step| makes_into(step, reg))
}

/// Whether one of these steps sets this register.
fn any_sets(steps: &[Step], reg: u8) -> bool
    ensures { result ≡ list_any (λ step. loads_into reg step || makes_into reg step) steps.now }
{
    steps
        .iter()
        .any(|step| loads_into(step, reg) || makes_into(step, reg))
}

/// Whether one of these steps tests this register's version.
fn any_tests(steps: &[Step], reg: u8) -> bool
    ensures { result ≡ list_any (tests_version reg) steps.now }
{
    steps.iter().any(|step| tests_version(step, reg))
}

/// Whether one of these steps is a `Stamp`.
fn any_stamp(steps: &[Step]) -> bool
    ensures { result ≡ list_any is_stamp steps.now }
{
    steps.iter().any(|step| step.is_stamp())
}

/// Whether one of these steps is an `Answer`.
fn any_answer(steps: &[Step]) -> bool
    ensures { result ≡ list_any is_answer steps.now }
{
    steps.iter().any(|step| step.is_answer())
}

/// Whether this value's register is set by the fitting kind of step.
fn is_set(earlier: &[Step], value: Value) -> bool
    ensures { result ≡ is_set earlier.now value }
{
    match value {
        Value::Const(_) => true,
        Value::Of(reg) => any_loads(earlier, reg),
        Value::Made(reg) => any_makes(earlier, reg),
    }
}

/// Whether each register that this step uses is set by the fitting kind of step.
fn uses_set(earlier: &[Step], step: &Step) -> bool
    ensures { result ≡ list_all (is_set earlier.now) (used_values step.now) }
{
    match *step {
        Step::Want { reg, word: _ } | Step::Fresh { reg } => is_set(earlier, Value::Of(reg)),
        Step::Make { init, into: _ } => init.cells.iter().all(|value| is_set(earlier, *value)),
        Step::Store { reg, value } => is_set(earlier, Value::Of(reg)) && is_set(earlier, value),
        _ => true,
    }
}

/// Whether this register may still be set.
fn is_settable(earlier: &[Step], reg: u8) -> bool
    ensures { result ≡ is_settable earlier.now reg }
{
    reg <= 15 && !any_sets(earlier, reg)
}

/// Whether the register that this step sets, if any, may still be set.
fn sets_settable(earlier: &[Step], step: &Step) -> bool
    ensures { result ≡ list_all (is_settable earlier.now) (set_registers step.now) }
{
    match *step {
        Step::Load { place: _, into } => is_settable(earlier, into),
        Step::Make { init: _, into } => is_settable(earlier, into),
        _ => true,
    }
}

/// The phase of the last of these steps, and 0 where there is none.
fn phase_before(earlier: &[Step]) -> u32
    ensures { result ≡ phase_before earlier.now }
{
    match earlier.last() {
        Some(step) => step.phase(),
        None => 0,
    }
}

/// Whether this is a second `Stamp` or a second `Answer`.
fn is_second(earlier: &[Step], step: &Step) -> bool
    ensures { result ≡ is_second earlier.now step.now }
{
    match step {
        Step::Stamp => any_stamp(earlier),
        Step::Answer { .. } => any_answer(earlier),
        _ => false,
    }
}

/// Whether this is a `Store` without an earlier `Fresh` of its register.
fn is_untested(earlier: &[Step], step: &Step) -> bool
    ensures { result ≡ is_untested earlier.now step.now }
{
    match *step {
        Step::Store { reg, value: _ } => !any_tests(earlier, reg),
        _ => false,
    }
}

/// Whether this step, which stands at place `n`, stores to this place.
fn step_stores_to(steps: &[Step], n: usize, step: &Step, place: Place) -> bool
    requires few { length steps.now ≤ 40 }
    requires within { n ≤ length steps.now }
    ensures { result ≡ list_any (λ stored. stored == place) (places_of (registers_before steps.now n) step.now) }
{
    match *step {
        Step::Store { reg, value: _ } => register_at(steps, n, reg).place == place,
        _ => false,
    }
}

/// Whether one of these steps stores to this place.
fn stores_to(steps: &[Step], place: Place) -> bool
    requires { length steps.now ≤ 40 }
    ensures { result ≡ list_any (λ stored. stored == place) (stored_places no_registers steps.now) }
{
    for n in 0..steps.len() {
        if step_stores_to(steps, n, &steps[n], place) {
            return true;
        }
    }
    false
}

/// Whether this is a `Store` to a place that an earlier `Store` has.
fn is_stored_again(earlier: &[Step], step: &Step) -> bool
    requires { length earlier.now ≤ 40 }
    ensures { result ≡ is_stored_again earlier.now step.now }
{
    match *step {
        Step::Store { reg, value: _ } => {
            let place = register_at(earlier, earlier.len(), reg).place;
            stores_to(earlier, place)
        }
        _ => false,
    }
}

/// How many of these steps are a `Make`.
fn make_count(steps: &[Step]) -> usize
    ensures { result ≡ count_by is_make steps.now }
{
    steps.iter().filter(|step| step.is_make()).count()
}

/// The fault of a step that follows these ones.
pub fn step_fault(earlier: &[Step], step: &Step) -> Option<Misshape>
    requires { length earlier.now ≤ 40 }
    ensures { result ≡ step_fault earlier.now step.now }
{
    let at = earlier.len();
    let phase = step.phase();
    if phase < phase_before(earlier) {
        return Some(if phase == 1 {
            Misshape::ExitAfterEffect { at }
        } else {
            Misshape::OutOfOrder { at }
        });
    }
    if is_second(earlier, step) {
        return Some(Misshape::OutOfOrder { at });
    }
    if phase >= 4 && !any_stamp(earlier) {
        return Some(Misshape::NoStamp { at });
    }
    if step.is_make() && make_count(earlier) >= 2 {
        return Some(Misshape::TooManyMakes { at });
    }
    if !uses_set(earlier, step) || !sets_settable(earlier, step) {
        return Some(Misshape::RegisterUnset { at });
    }
    if is_untested(earlier, step) {
        return Some(Misshape::NotFresh { at });
    }
    if is_stored_again(earlier, step) {
        return Some(Misshape::StoredTwice { at });
    }
    None
}

/// What is missing at the end of these steps.
pub fn end_fault(steps: &[Step]) -> Option<Misshape>
    ensures { result ≡ end_fault steps.now }
{
    let at = steps.len();
    if !any_stamp(steps) {
        Some(Misshape::NoStamp { at })
    } else if !any_answer(steps) {
        Some(Misshape::NoAnswer { at })
    } else {
        None
    }
}
