//! The own node slots, as a runner's code keeps them.
ghost use Rattle.std.specs.Prelude.{◌≡◌, ◌+◌, ◌-◌, ◌<◌, ◌≤◌, ◌^◌, IfOk, length, true, if◌then◌else◌};
ghost use Rattle.machine_states.specs.runner_parts.specs.Lists.{nodes_collected, slot_taken, slot_made, slot_back, slot_retired, slot_given, slot_drawn, slot_tested, nodes_looked, one_more};
ghost use Rattle.machine_states.specs.runner_parts.specs.Tests.{has};
ghost use Rattle.machine_states.specs.epoch_core.specs.Lists.{times};
ghost use Rattle.machine_states.specs.First.{falling};
ghost use Rattle.runner_block.specs.Room.{AreFew, first_nodes, nodes_are};

use crate::reserved::{falling, forget, has, remove, renew, take_out, test_of, wait_over};
use machine_states::body_terms::Word;
use machine_states::runner_parts::{Retired, Tested};
use machine_states::table_words::Layout;
use std::alloc::{AllocError, Global};
use std::marker::Model;

/// The lists of own node slots, and for how many slots they have room.
#[derive(Drop)]
pub struct NodeLists {
    free: Vec<u32>,
    hand: Vec<u32>,
    tests: Vec<Tested>,
    limbo: Vec<Retired>,
    worn: Vec<u32>,
    room: u32,
}

impl Model for NodeLists {
    ghost use Rattle.std.specs.Prelude.{◌+◌, vec_len};
    ghost use Rattle.std.specs.Vec.{vec_capacity};
    ghost use Rattle.runner_block.specs.Room.{NodesKept, NodesFit};

    ghost Value = { NodesKept };

    ghost view = { λ a. record {
      lists = record {
        free = a.free.items;
        hand = a.hand.items;
        tests = a.tests.items;
        limbo = a.limbo.items;
        worn = a.worn.items;
      };
      room = a.room;
    } };

    ghost invariant = { λ a. NodesFit a.room
        (vec_len a.free + vec_len a.hand + vec_len a.limbo + vec_len a.worn)
        (vec_capacity a.free) (vec_capacity a.hand) (vec_capacity a.tests)
        (vec_capacity a.limbo) (vec_capacity a.worn)
        (record {
          free = a.free.items;
          hand = a.hand.items;
          tests = a.tests.items;
          limbo = a.limbo.items;
          worn = a.worn.items;
        }) };
}

impl NodeLists {
    /// So many free slots from this one on, and room for `room` slots in each list.
    pub fn new(alloc: Global, first: u32, count: u32, room: u32) -> Result<Self, AllocError>
        requires room { first + count ≤ room }
        requires few { room < 2 ^ 32 }
        ensures { IfOk result (λ x. x ≡ first_nodes (falling first count) room) }
    {
        Ok(NodeLists {
            free: falling(alloc, first, count, room)?,
            hand: Vec::with_capacity(alloc, room as usize)?,
            tests: Vec::with_capacity(alloc, room as usize)?,
            limbo: Vec::with_capacity(alloc, room as usize)?,
            worn: Vec::with_capacity(alloc, room as usize)?,
            room,
        })
    }

    pub fn free(&self) -> &[u32]
        ensures list { result.now ≡ self.now.lists.free }
        ensures few { length result.now < 2 ^ 32 }
    {
        &self.free
    }

    pub fn hand(&self) -> &[u32]
        ensures list { result.now ≡ self.now.lists.hand }
        ensures few { length result.now < 2 ^ 32 }
    {
        &self.hand
    }

    pub fn limbo(&self) -> u32
        ensures { result ≡ length self.now.lists.limbo }
    {
        self.limbo.len() as u32
    }

    pub fn worn(&self) -> u32
        ensures { result ≡ length self.now.lists.worn }
    {
        self.worn.len() as u32
    }

    /// The slots that have waited long enough go from limbo to the hand.
    pub fn collect(&mut self, epoch: u64)
        ensures { self.new ≡ nodes_are self.old (nodes_collected epoch self.old.lists) }
    {
        wait_over(&mut self.hand, &mut self.limbo, epoch);
    }

    /// A Make takes a free slot into the hand, mostly the last one.
    pub fn take(&mut self, slot: u32)
        requires own { has self.old.lists.free slot ≡ true }
        requires once { times slot self.old.lists.free ≤ 1 }
        ensures { self.new ≡ nodes_are self.old (slot_taken self.old.lists slot) }
    {
        take_out(&mut self.free, slot);
        self.hand.push_reserved(slot);
    }

    /// A slot that was live was retired with this epoch.
    pub fn retire(&mut self, slot: u32, epoch: u64)
        requires { AreFew self.old.room (slot_retired self.old.lists slot epoch) }
        ensures { self.new ≡ nodes_are self.old (slot_retired self.old.lists slot epoch) }
    {
        self.limbo.push_reserved(Retired { slot, epoch });
    }

    /// A free slot went onto the board.
    pub fn give(&mut self, slot: u32)
        requires own { has self.old.lists.free slot ≡ true }
        requires once { times slot self.old.lists.free ≤ 1 }
        ensures { self.new ≡ nodes_are self.old (slot_given self.old.lists slot) }
    {
        take_out(&mut self.free, slot);
    }

    /// A slot was taken from the board, and is free.
    pub fn draw(&mut self, slot: u32)
        requires node { slot < self.old.room }
        requires few { AreFew self.old.room (slot_drawn self.old.lists slot) }
        ensures { self.new ≡ nodes_are self.old (slot_drawn self.old.lists slot) }
    {
        self.free.push_reserved(slot);
    }

    /// A slot in the hand comes back to the free list, or to the worn list.
    fn slot_back(&mut self, slot: u32, worn: bool)
        requires { has self.old.lists.hand slot ≡ true }
        ensures { self.new ≡ nodes_are self.old (slot_back self.old.lists slot worn) }
    {
        remove(&mut self.hand, slot);
        forget(&mut self.tests, slot);
        if worn {
            self.worn.push_reserved(slot);
        } else {
            self.free.push_reserved(slot);
        }
    }

    /// The slot in the hand that a Make filled is live, where its commit won; otherwise it comes back.
    pub fn made(&mut self, slot: u32, won: bool, worn: bool)
        requires { has self.old.lists.hand slot ≡ true }
        ensures { self.new ≡ nodes_are self.old
            (if won then slot_made self.old.lists slot else slot_back self.old.lists slot worn) }
    {
        if won {
            remove(&mut self.hand, slot);
        } else {
            self.slot_back(slot, worn);
        }
    }

    /// One more cell of a slot in the hand was looked at: after the fifth it comes back.
    fn slot_tested(&mut self, test: Tested)
        requires { has self.old.lists.hand test.slot ≡ true }
        ensures { self.new ≡ nodes_are self.old (slot_tested self.old.lists test) }
    {
        if test.cells == 5 {
            self.slot_back(test.slot, test.worn);
        } else {
            renew(&mut self.tests, test);
        }
    }

    /// After a private load outside a run: only the next cell of a slot in the hand counts.
    #[inline(always)]
    pub fn look(&mut self, layout: Layout, slot: u32, cell: u32, word: u64)
        ensures { self.new ≡ nodes_are self.old (nodes_looked layout self.old.lists slot cell word) }
    {
        if has(&self.hand, slot) {
            let test = test_of(&self.tests, slot);
            if cell == test.cells && cell < 5 {
                self.slot_tested(one_more(layout, test, word));
            }
        }
    }
}

/// One more cell of a slot, with this word.
fn one_more(layout: Layout, test: Tested, word: u64) -> Tested
    requires { test.cells < 2 ^ 32 - 1 }
    ensures { result ≡ one_more layout test word }
{
    Tested {
        slot: test.slot,
        cells: test.cells + 1,
        worn: test.worn || Word::from_bits(word).version() == layout.version_max,
    }
}
