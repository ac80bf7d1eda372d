//! The own blocks and the links of a run, as a runner's code keeps them.
ghost use Rattle.std.specs.Prelude.{◌≡◌, ◌+◌, ◌<◌, ◌≤◌, ◌^◌, IfOk, length, None, Some};
ghost use Rattle.machine_states.specs.epoch_core.specs.Lists.{times};
ghost use Rattle.machine_states.specs.guard_core.specs.Moves.{is_unnamed};
ghost use Rattle.machine_states.specs.First.{falling};
ghost use Rattle.machine_states.specs.table_words.specs.Places.{part_words};
ghost use Rattle.machine_states.specs.runner_parts.specs.Lists.{blocks_freed, blocks_given_back};
ghost use Rattle.machine_states.specs.runner_steps.specs.InRun.{make_slot, last_of};
ghost use Rattle.runner_block.specs.Links.{first_blocks, blocks_are, block_in_run, block_emptied, block_linked, links_over};

use crate::reserved::{falling, take_out};
use crate::waiting::{add_under, free_under, free_unnamed};
use machine_states::body_terms::Word;
use machine_states::runner_parts::Waiting;
use machine_states::table_words::{BLOCK_WORDS, PART_WORDS};
use std::alloc::{AllocError, Global};
use std::marker::Model;

/// The lists of own blocks, and of a run in progress what it has linked. Each list has room for all own blocks.
#[derive(Drop)]
pub struct LogBlocks {
    free: Vec<u32>,
    limbo: Vec<Waiting>,
    won: Vec<u32>,
    start: u32,
    last: Option<u32>,
    block: Option<u32>,
    emptied: u32,
    /// Whether the run has taken a block or linked one: most runs do neither, and end without a look at the links.
    used: bool,
}

impl Model for LogBlocks {
    ghost use Rattle.std.specs.Prelude.{◌+◌, vec_len};
    ghost use Rattle.std.specs.Vec.{vec_capacity};
    ghost use Rattle.runner_block.specs.Links.{BlocksKept, BlocksFit, in_hand};

    ghost Value = { BlocksKept };

    ghost view = { λ a. record {
      lists = record { free = a.free.items; limbo = a.limbo.items };
      links = record { start = a.start; last = a.last; block = a.block; emptied = a.emptied; won = a.won.items };
    } };

    ghost invariant = { λ a. BlocksFit
        (vec_len a.free + vec_len a.limbo + vec_len a.won + in_hand a.block)
        (vec_capacity a.free) (vec_capacity a.limbo) (vec_capacity a.won) a.used
        (record { start = a.start; last = a.last; block = a.block; emptied = a.emptied; won = a.won.items }) };
}

impl LogBlocks {
    /// So many free blocks from this one on.
    pub fn new(alloc: Global, first: u32, count: u32) -> Result<Self, AllocError>
        requires few { first + count < 2 ^ 32 }
        ensures { IfOk result (λ x. x ≡ first_blocks (falling first count)) }
    {
        Ok(LogBlocks {
            free: falling(alloc, first, count, count)?,
            limbo: Vec::with_capacity(alloc, count as usize)?,
            won: Vec::with_capacity(alloc, count as usize)?,
            start: 0,
            last: None,
            block: None,
            emptied: 0,
            used: false,
        })
    }

    pub fn free(&self) -> &[u32]
        ensures list { result.now ≡ self.now.lists.free }
        ensures few { length result.now < 2 ^ 32 }
    {
        &self.free
    }

    pub fn limbo(&self) -> u32
        ensures { result ≡ length self.now.lists.limbo }
    {
        self.limbo.len() as u32
    }

    /// The place in the log at which the last part of the run's section begins.
    #[inline(always)]
    pub fn start(&self) -> u32
        ensures { result ≡ self.now.links.start }
    {
        self.start
    }

    /// The block that has this part, if it isn't the descriptor.
    pub fn last(&self) -> Option<u32>
        ensures { result ≡ self.now.links.last }
    {
        self.last
    }

    /// The block that the run is to empty: the one in its hand, or else the last free one.
    pub fn next(&self) -> Option<u32>
        ensures { result ≡ make_slot self.now.links.block self.now.lists.free }
    {
        match self.block {
            Some(block) => Some(block),
            None => last_of(&self.free),
        }
    }

    /// How many words of that block are 0.
    pub fn emptied(&self) -> u32
        ensures { result ≡ self.now.links.emptied }
    {
        self.emptied
    }

    /// One more word of this block is 0. With the first one the block is taken out of the free list.
    pub fn empty(&mut self, block: u32)
        requires own { make_slot self.old.links.block self.old.lists.free ≡ Some block }
        requires once { self.old.links.block ≡ None → times block self.old.lists.free ≤ 1 }
        ensures { self.new ≡ block_emptied self.old block }
    {
        if self.block.is_none() {
            self.take(block);
        }
        if self.emptied < BLOCK_WORDS as u32 {
            self.emptied += 1;
        }
    }

    /// The block is taken out of the free list into the hand.
    fn take(&mut self, block: u32)
        requires own { last_of self.old.lists.free ≡ Some block }
        requires once { times block self.old.lists.free ≤ 1 }
        requires none { self.old.links.block ≡ None }
        ensures { self.new ≡ block_in_run self.old block }
    {
        take_out(&mut self.free, block);
        self.block = Some(block);
        self.used = true;
    }

    /// The exchange of a link that was to link the block in the hand found this number: where that was 0 the block is
    /// linked, and else it comes back.
    pub fn link(&mut self, block: u32, found: u64)
        requires own { self.old.links.block ≡ Some block }
        requires few { self.old.links.start + part_words < 2 ^ 32 }
        ensures { self.new ≡ block_linked self.old block found }
    {
        self.start += PART_WORDS as u32;
        self.block = None;
        self.emptied = 0;
        self.used = true;
        if found == 0 {
            self.last = Some(block);
            self.won.push_reserved(block);
        } else {
            self.last = Some(Word::from_bits(found - 1).value());
            self.free.push_reserved(block);
        }
    }

    /// A run of this descriptor is over: the blocks that it linked go into limbo under it.
    #[inline(always)]
    pub fn end_run(&mut self, descriptor: u32)
        ensures { self.new ≡ links_over self.old descriptor }
    {
        if self.used {
            self.retire(descriptor);
        }
    }

    #[inline(never)]
    fn retire(&mut self, descriptor: u32)
        ensures { self.new ≡ links_over self.old descriptor }
    {
        add_under(&mut self.limbo, &self.won, descriptor);
        self.won.clear();
        self.start = 0;
        self.last = None;
        self.block = None;
        self.emptied = 0;
        self.used = false;
    }

    /// A sweep read these guard words: what lies under a descriptor that none of them names goes from limbo to the free
    /// list.
    pub fn sweep(&mut self, words: &[u64])
        ensures { self.new ≡ blocks_are self.old (blocks_freed (is_unnamed words.now) self.old.lists) }
    {
        if !self.limbo.is_empty() {
            free_unnamed(&mut self.free, &mut self.limbo, words);
        }
    }

    /// The runner becomes sure of this descriptor: what lies under it goes from limbo to the free list.
    pub fn give_back(&mut self, descriptor: u32)
        ensures { self.new ≡ blocks_are self.old (blocks_given_back descriptor self.old.lists) }
    {
        if !self.limbo.is_empty() {
            free_under(&mut self.free, &mut self.limbo, descriptor);
        }
    }
}

/// The last of a list.
fn last_of(numbers: &[u32]) -> Option<u32>
    ensures { result ≡ last_of numbers.now }
{
    if numbers.len() == 0 {
        None
    } else {
        Some(numbers[numbers.len() - 1])
    }
}
