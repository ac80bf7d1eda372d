//! Lists with reserved room.
ghost use Rattle.std.specs.Prelude.{◌≡◌, ◌+◌, ◌<◌, ◌≤◌, ◌^◌, [], ◌∷◌, ◌++◌, IfOk, vec_len, length, not};
ghost use Rattle.std.specs.List.{filter};
ghost use Rattle.std.specs.Vec.{vec_capacity};
ghost use Rattle.machine_states.specs.runner_parts.specs.Lists.{is_old, slots_of, without, test_of, tests_without};
ghost use Rattle.machine_states.specs.runner_parts.specs.Tests.{has};
ghost use Rattle.machine_states.specs.guard_core.specs.Moves.{is_unnamed};
ghost use Rattle.machine_states.specs.epoch_core.specs.Lists.{times};
ghost use Rattle.machine_states.specs.First.{falling};

use machine_states::runner_parts::{Retired, Tested};
use std::alloc::{AllocError, Global};

/// Whether a slot was retired long enough ago to be used again: two epochs before this one.
fn is_old(epoch: u64, retired: &Retired) -> bool
    ensures { result ≡ is_old epoch retired.now }
{
    epoch >= 2 && retired.epoch <= epoch - 2
}

/// The slots that have waited long enough are added to the list.
fn add_old(list: &mut Vec<u32>, limbo: &[Retired], epoch: u64)
    requires { vec_len list.old + length limbo.now ≤ vec_capacity list.old }
    ensures items { list.new.items ≡ list.old.items ++ slots_of (filter (is_old epoch) limbo.now) }
    ensures room { vec_capacity list.new ≡ vec_capacity list.old }
{
    for retired in limbo {
        if is_old(epoch, retired) {
            list.push_reserved(retired.slot);
        }
    }
}

/// The slots that have waited long enough go from limbo into the list.
#[inline(never)]
fn move_old(list: &mut Vec<u32>, limbo: &mut Vec<Retired>, epoch: u64)
    requires { vec_len list.old + vec_len limbo.old ≤ vec_capacity list.old }
    ensures list { list.new.items ≡ list.old.items ++ slots_of (filter (is_old epoch) limbo.old.items) }
    ensures limbo { limbo.new.items ≡ filter (λ x. not (is_old epoch x)) limbo.old.items }
    ensures sum { vec_len list.new + vec_len limbo.new ≡ vec_len list.old + vec_len limbo.old }
    ensures room { vec_capacity list.new ≡ vec_capacity list.old }
    ensures limbo_room { vec_capacity limbo.new ≡ vec_capacity limbo.old }
{
    add_old(list, limbo, epoch);
    limbo.retain(|x| !is_old(epoch, x));
}

/// The slots that have waited long enough go from limbo into the list. Mostly none is in limbo, and nothing is written.
#[inline(always)]
pub fn wait_over(list: &mut Vec<u32>, limbo: &mut Vec<Retired>, epoch: u64)
    requires { vec_len list.old + vec_len limbo.old ≤ vec_capacity list.old }
    ensures list { list.new.items ≡ list.old.items ++ slots_of (filter (is_old epoch) limbo.old.items) }
    ensures limbo { limbo.new.items ≡ filter (λ x. not (is_old epoch x)) limbo.old.items }
    ensures sum { vec_len list.new + vec_len limbo.new ≡ vec_len list.old + vec_len limbo.old }
    ensures room { vec_capacity list.new ≡ vec_capacity list.old }
    ensures limbo_room { vec_capacity limbo.new ≡ vec_capacity limbo.old }
{
    if !limbo.is_empty() {
        move_old(list, limbo, epoch);
    }
}

/// Whether none of these guard words names this descriptor.
pub fn is_unnamed(words: &[u64], descriptor: u32) -> bool
    ensures { result ≡ is_unnamed words.now descriptor }
{
    for word in words {
        if *word == descriptor as u64 + 1 {
            return false;
        }
    }
    true
}

/// The descriptors that none of these guard words names are added to the list.
fn add_unnamed(list: &mut Vec<u32>, limbo: &[u32], words: &[u64])
    requires { vec_len list.old + length limbo.now ≤ vec_capacity list.old }
    ensures items { list.new.items ≡ list.old.items ++ filter (is_unnamed words.now) limbo.now }
    ensures room { vec_capacity list.new ≡ vec_capacity list.old }
{
    for descriptor in limbo {
        if is_unnamed(words, *descriptor) {
            list.push_reserved(*descriptor);
        }
    }
}

/// The descriptors that none of these guard words names go from limbo into the list.
pub fn free_unnamed(list: &mut Vec<u32>, limbo: &mut Vec<u32>, words: &[u64])
    requires { vec_len list.old + vec_len limbo.old ≤ vec_capacity list.old }
    ensures list { list.new.items ≡ list.old.items ++ filter (is_unnamed words.now) limbo.old.items }
    ensures limbo { limbo.new.items ≡ filter (λ x. not (is_unnamed words.now x)) limbo.old.items }
    ensures sum { vec_len list.new + vec_len limbo.new ≡ vec_len list.old + vec_len limbo.old }
    ensures room { vec_capacity list.new ≡ vec_capacity list.old }
    ensures limbo_room { vec_capacity limbo.new ≡ vec_capacity limbo.old }
{
    add_unnamed(list, limbo, words);
    limbo.retain(|x| !is_unnamed(words, *x));
}

/// A list of this many numbers from this one on, in falling order, with room for `room` of them.
pub fn falling(alloc: Global, from: u32, count: u32, room: u32) -> Result<Vec<u32>, AllocError>
    requires fits { from + count < 2 ^ 32 }
    requires room { count ≤ room }
    ensures items { IfOk result (λ v. v.items ≡ falling from count) }
    ensures room { IfOk result (λ v. vec_capacity v ≡ room) }
{
    let mut numbers = Vec::with_capacity(alloc, room as usize)?;
    for below in 0..count {
        numbers.push_reserved(from + (count - 1 - below));
    }
    Ok(numbers)
}

/// Whether the list has this number.
pub fn has(numbers: &[u32], number: u32) -> bool
    ensures { result ≡ has numbers.now number }
{
    numbers.iter().any(|x| *x == number)
}

/// The number leaves the list.
pub fn remove(numbers: &mut Vec<u32>, number: u32)
    ensures items { numbers.new.items ≡ without numbers.old.items number }
    ensures room { vec_capacity numbers.new ≡ vec_capacity numbers.old }
{
    numbers.retain(|x| !(*x == number));
}

/// The number, which stands there at most once, leaves the list. Where it is the last one no other is looked at.
pub fn take_out(numbers: &mut Vec<u32>, number: u32)
    requires { times number numbers.old.items ≤ 1 }
    ensures items { numbers.new.items ≡ without numbers.old.items number }
    ensures room { vec_capacity numbers.new ≡ vec_capacity numbers.old }
{
    let count = numbers.len();
    if count > 0 && numbers[count - 1] == number {
        numbers.pop();
    } else {
        remove(numbers, number);
    }
}

/// How far the slot's cells have been looked at.
pub fn test_of(tests: &[Tested], slot: u32) -> Tested
    ensures test { result ≡ test_of tests.now slot }
    ensures slot { result.slot ≡ slot }
{
    for test in tests {
        if test.slot == slot {
            return *test;
        }
    }
    Tested {
        slot,
        cells: 0,
        worn: false,
    }
}

/// The tests of this slot are forgotten.
pub fn forget(tests: &mut Vec<Tested>, slot: u32)
    ensures items { tests.new.items ≡ tests_without tests.old.items slot }
    ensures room { vec_capacity tests.new ≡ vec_capacity tests.old }
{
    tests.retain(|x| !(x.slot == slot));
}

/// This test comes behind the others, in place of those of its slot. Where it is the only one it is written over.
#[inline(always)]
pub fn renew(tests: &mut Vec<Tested>, test: Tested)
    requires { length (tests_without tests.old.items test.slot) < vec_capacity tests.old }
    ensures items { tests.new.items ≡ tests_without tests.old.items test.slot ++ test ∷ [] }
    ensures room { vec_capacity tests.new ≡ vec_capacity tests.old }
{
    if tests.len() == 1 && tests[0].slot == test.slot {
        tests[0] = test;
    } else {
        forget(tests, test.slot);
        tests.push_reserved(test);
    }
}
