//! How a runner's lists change.
ghost use Rattle.std.specs.Prelude.{◌≡◌, ◌==◌, ◌<◌, ◌-◌, ◌^◌, not, IfOk, OnOk};
ghost use Rattle.std.specs.List.{filter};
ghost use Rattle.runner_parts.specs.Lists.{without, is_old, slots_of, nodes_collected, test_of, tests_without, slot_back, slot_tested, one_more, nodes_looked, slot_taken, slot_made, slot_given, slot_drawn, slot_retired, descriptor_stored, descriptor_taken, descriptor_retired, descriptors_swept, published_seen, named_seen, cell_read, walked, learned};
ghost use Rattle.runner_parts.specs.Tests.{has};
ghost use Rattle.guard_core.specs.Moves.{is_unnamed};

use crate::entries::{Known, Retired, Stored, Tested};
use crate::lists::{Descriptors, Guards, Nodes, Reads, Records};
use block_words::table_words::Layout;
use std::alloc::{AllocError, Global};
use structure_laws::body_terms::{Place, Word};

/// Whether the list has this number.
pub fn has(numbers: &[u32], number: u32) -> bool
    ensures { result ≡ has numbers.now number }
{
    numbers.iter().any(|x| *x == number)
}

/// The list without this number.
pub fn without(alloc: Global, numbers: &[u32], number: u32) -> Result<Vec<u32>, AllocError>
    ensures { IfOk result (λ v. v.items ≡ without numbers.now number) }
{
    numbers
        .iter()
        .copied()
        .filter(|x| !(*x == number))
        .collect(alloc)
}

/// Whether a slot was retired long enough ago to be used again: two epochs before this one.
fn is_old(epoch: u64, retired: &Retired) -> bool
    ensures { result ≡ is_old epoch retired.now }
{
    epoch >= 2 && retired.epoch <= epoch - 2
}

/// The slots that have waited long enough.
fn old_slots(alloc: Global, limbo: &[Retired], epoch: u64) -> Result<Vec<u32>, AllocError>
    ensures { IfOk result (λ v. v.items ≡ slots_of (filter (is_old epoch) limbo.now)) }
{
    limbo
        .iter()
        .filter(|x| is_old(epoch, *x))
        .map(|x| x.slot)
        .collect(alloc)
}

/// The slots that have still to wait.
fn young(alloc: Global, limbo: &[Retired], epoch: u64) -> Result<Vec<Retired>, AllocError>
    ensures { IfOk result (λ v. v.items ≡ filter (λ x. not (is_old epoch x)) limbo.now) }
{
    limbo
        .iter()
        .copied()
        .filter(|x| !is_old(epoch, x))
        .collect(alloc)
}

/// How far the slot's cells have been looked at.
fn test_of(tests: &[Tested], slot: u32) -> Tested
    ensures { result ≡ test_of tests.now slot }
{
    for test in tests {
        if test.slot == slot {
            return *test;
        }
    }
    Tested {
        slot,
        cells: 0,
        worn: false,
    }
}

/// The tests of the other slots.
fn tests_without(alloc: Global, tests: &[Tested], slot: u32) -> Result<Vec<Tested>, AllocError>
    ensures { IfOk result (λ v. v.items ≡ tests_without tests.now slot) }
{
    tests
        .iter()
        .copied()
        .filter(|x| !(x.slot == slot))
        .collect(alloc)
}

impl Nodes {
    /// The slots that have waited long enough go from limbo to the hand.
    pub fn collect(&mut self, alloc: Global, epoch: u64) -> Result<(), AllocError>
        ensures { OnOk result (self.new ≡ nodes_collected epoch self.old) }
    {
        let old = old_slots(alloc, &self.limbo, epoch)?;
        self.limbo = young(alloc, &self.limbo, epoch)?;
        self.hand.extend_from_slice(&old)?;
        Ok(())
    }

    /// A slot in the hand comes back to the free list, or to the worn list.
    pub fn slot_back(&mut self, alloc: Global, slot: u32, worn: bool) -> Result<(), AllocError>
        ensures { OnOk result (self.new ≡ slot_back self.old slot worn) }
    {
        self.hand = without(alloc, &self.hand, slot)?;
        self.tests = tests_without(alloc, &self.tests, slot)?;
        if worn {
            self.worn.push(slot)?;
        } else {
            self.free.push(slot)?;
        }
        Ok(())
    }

    /// One more cell of a slot in the hand was looked at: after the fifth it comes back.
    fn slot_tested(&mut self, alloc: Global, test: Tested) -> Result<(), AllocError>
        ensures { OnOk result (self.new ≡ slot_tested self.old test) }
    {
        if test.cells == 5 {
            self.slot_back(alloc, test.slot, test.worn)
        } else {
            self.tests = tests_without(alloc, &self.tests, test.slot)?;
            self.tests.push(test)?;
            Ok(())
        }
    }

    /// After a private load outside a run: only the next cell of a slot in the hand counts.
    pub fn looked(
        &mut self,
        alloc: Global,
        layout: Layout,
        slot: u32,
        cell: u32,
        word: u64,
    ) -> Result<(), AllocError>
        ensures { OnOk result (self.new ≡ nodes_looked layout self.old slot cell word) }
    {
        let test = test_of(&self.tests, slot);
        if has(&self.hand, slot) && cell == test.cells && cell < 5 {
            self.slot_tested(alloc, one_more(layout, test, word))
        } else {
            Ok(())
        }
    }

    /// A Make takes a free slot into the hand.
    pub fn take(&mut self, alloc: Global, slot: u32) -> Result<(), AllocError>
        ensures { OnOk result (self.new ≡ slot_taken self.old slot) }
    {
        self.free = without(alloc, &self.free, slot)?;
        self.hand.push(slot)?;
        Ok(())
    }

    /// A made slot leaves the hand for good.
    pub fn made(&mut self, alloc: Global, slot: u32) -> Result<(), AllocError>
        ensures { OnOk result (self.new ≡ slot_made self.old slot) }
    {
        self.hand = without(alloc, &self.hand, slot)?;
        Ok(())
    }

    /// A free slot goes onto the board.
    pub fn give(&mut self, alloc: Global, slot: u32) -> Result<(), AllocError>
        ensures { OnOk result (self.new ≡ slot_given self.old slot) }
    {
        self.free = without(alloc, &self.free, slot)?;
        Ok(())
    }

    /// One from the board comes to the end of the free list.
    pub fn draw(&mut self, slot: u32) -> Result<(), AllocError>
        ensures { OnOk result (self.new ≡ slot_drawn self.old slot) }
    {
        self.free.push(slot)?;
        Ok(())
    }

    pub fn retire(&mut self, slot: u32, epoch: u64) -> Result<(), AllocError>
        ensures { OnOk result (self.new ≡ slot_retired self.old slot epoch) }
    {
        self.limbo.push(Retired { slot, epoch })?;
        Ok(())
    }
}

/// One more cell of a slot, with this word.
fn one_more(layout: Layout, test: Tested, word: u64) -> Tested
    requires { test.cells < 2 ^ 32 - 1 }
    ensures { result ≡ one_more layout test word }
{
    Tested {
        slot: test.slot,
        cells: test.cells + 1,
        worn: test.worn || Word::from_bits(word).version() == layout.version_max,
    }
}

impl Descriptors {
    /// At the end of a sweep that read these guard words, the descriptors that none of them names go from limbo to
    /// the free list.
    pub fn sweep(&mut self, alloc: Global, words: &[u64]) -> Result<(), AllocError>
        ensures { OnOk result (self.new ≡ descriptors_swept words.now self.old) }
    {
        let free = unnamed(alloc, &self.limbo, words)?;
        self.limbo = named(alloc, &self.limbo, words)?;
        self.free.extend_from_slice(&free)?;
        Ok(())
    }

    pub fn store(&mut self, descriptor: u32, word: u32, number: u64) -> Result<(), AllocError>
        ensures { OnOk result (self.new ≡ descriptor_stored self.old descriptor word number) }
    {
        self.stored.push(Stored {
            descriptor,
            word,
            number,
        })?;
        Ok(())
    }

    /// A published descriptor leaves the free list, and what was stored into it is forgotten.
    pub fn take(&mut self, alloc: Global, descriptor: u32) -> Result<(), AllocError>
        ensures { OnOk result (self.new ≡ descriptor_taken self.old descriptor) }
    {
        self.free = without(alloc, &self.free, descriptor)?;
        self.stored = stored_without(alloc, &self.stored, descriptor)?;
        Ok(())
    }

    pub fn retire(&mut self, descriptor: u32) -> Result<(), AllocError>
        ensures { OnOk result (self.new ≡ descriptor_retired self.old descriptor) }
    {
        self.limbo.push(descriptor)?;
        Ok(())
    }
}

/// Whether none of these guard words names this descriptor.
pub fn is_unnamed(words: &[u64], descriptor: u32) -> bool
    ensures { result ≡ is_unnamed words.now descriptor }
{
    for word in words {
        if *word == descriptor as u64 + 1 {
            return false;
        }
    }
    true
}

/// The descriptors that none of these guard words names.
fn unnamed(alloc: Global, limbo: &[u32], words: &[u64]) -> Result<Vec<u32>, AllocError>
    ensures { IfOk result (λ v. v.items ≡ filter (is_unnamed words.now) limbo.now) }
{
    limbo
        .iter()
        .copied()
        .filter(|x| is_unnamed(words, *x))
        .collect(alloc)
}

/// The other ones.
fn named(alloc: Global, limbo: &[u32], words: &[u64]) -> Result<Vec<u32>, AllocError>
    ensures { IfOk result (λ v. v.items ≡ filter (λ x. not (is_unnamed words.now x)) limbo.now) }
{
    limbo
        .iter()
        .copied()
        .filter(|x| !is_unnamed(words, *x))
        .collect(alloc)
}

/// What was stored into the other descriptors.
fn stored_without(
    alloc: Global,
    stored: &[Stored],
    descriptor: u32,
) -> Result<Vec<Stored>, AllocError>
    ensures { IfOk result (λ v. v.items ≡ filter (λ x. not (x.descriptor == descriptor)) stored.now) }
{
    stored
        .iter()
        .copied()
        .filter(|x| !(x.descriptor == descriptor))
        .collect(alloc)
}

impl Guards {
    /// This descriptor was seen published: the runner is sure of it, if its guard word names it.
    pub fn see_published(&mut self, descriptor: u32)
        ensures { self.new ≡ published_seen self.old descriptor }
    {
        if self.named == Some(descriptor) {
            self.sure = true;
        }
    }

    /// A word was read: where it is a lock's and names a descriptor, that one is published.
    pub fn see_named(&mut self, lock: bool, word: u64)
        ensures { self.new ≡ named_seen self.old lock word }
    {
        let value = Word::from_bits(word).value();
        if lock && value != 0 {
            self.see_published(value - 1);
        }
    }
}

impl Reads {
    /// One more cell was read.
    pub fn cell_read(&mut self, place: Place, word: u64) -> Result<(), AllocError>
        ensures { OnOk result (self.new ≡ cell_read self.old place word) }
    {
        self.cells.push((place, Word::from_bits(word)))?;
        Ok(())
    }

    /// A cell was read outside a run.
    pub fn walk_to(&mut self, place: Place, word: u64) -> Result<(), AllocError>
        ensures { OnOk result (self.new ≡ walked self.old place word) }
    {
        self.walk.push((place, Word::from_bits(word)))?;
        self.cells.push((place, Word::from_bits(word)))?;
        Ok(())
    }
}

impl Records {
    /// A stamp or reply word was read: it is known where it isn't 0.
    pub fn learn(&mut self, request: u32, reply: bool, number: u64) -> Result<(), AllocError>
        ensures { OnOk result (self.new ≡ learned self.old request reply number) }
    {
        if number != 0 {
            self.known.push(Known {
                request,
                reply,
                number,
            })?;
        }
        Ok(())
    }
}
