//! The own descriptors, as a runner's code keeps them.
ghost use Rattle.std.specs.Prelude.{◌≡◌, ◌+◌, ◌<◌, ◌≤◌, ◌^◌, IfOk, length, true, None};
ghost use Rattle.machine_states.specs.runner_parts.specs.Tests.{has};
ghost use Rattle.machine_states.specs.epoch_core.specs.Lists.{times};
ghost use Rattle.machine_states.specs.First.{falling};
ghost use Rattle.runner_block.specs.Room.{first_descriptors, sections_swept, section_held, section_over};

use crate::reserved::{falling, free_unnamed, take_out};
use std::alloc::{AllocError, Global};
use std::marker::Model;

/// The lists of own descriptors, and the one with which a section is published that wasn't run to its end yet.
#[derive(Drop)]
pub struct DescriptorLists {
    free: Vec<u32>,
    limbo: Vec<u32>,
    published: Option<u32>,
}

impl Model for DescriptorLists {
    ghost use Rattle.std.specs.Prelude.{◌+◌, vec_len};
    ghost use Rattle.std.specs.Vec.{vec_capacity};
    ghost use Rattle.runner_block.specs.Room.{DescriptorsKept, DescriptorsFit, owed};

    ghost Value = { DescriptorsKept };

    ghost view = { λ a. record { free = a.free.items; limbo = a.limbo.items; published = a.published } };

    ghost invariant = { λ a. DescriptorsFit (vec_len a.free + vec_len a.limbo + owed a.published)
        (vec_capacity a.free) (vec_capacity a.limbo) };
}

impl DescriptorLists {
    /// So many free descriptors from this one on, and room for `room` of them in each list.
    pub fn new(alloc: Global, first: u32, count: u32, room: u32) -> Result<Self, AllocError>
        requires few { first + count < 2 ^ 32 }
        requires room { count ≤ room }
        ensures { IfOk result (λ x. x ≡ first_descriptors (falling first count)) }
    {
        Ok(DescriptorLists {
            free: falling(alloc, first, count, room)?,
            limbo: Vec::with_capacity(alloc, room as usize)?,
            published: None,
        })
    }

    pub fn free(&self) -> &[u32]
        ensures list { result.now ≡ self.now.free }
        ensures few { length result.now < 2 ^ 32 }
    {
        &self.free
    }

    pub fn limbo(&self) -> u32
        ensures { result ≡ length self.now.limbo }
    {
        self.limbo.len() as u32
    }

    /// A sweep read these guard words: the descriptors that none of them names go from limbo to the free list.
    pub fn sweep(&mut self, words: &[u64])
        ensures { self.new ≡ sections_swept words.now self.old }
    {
        free_unnamed(&mut self.free, &mut self.limbo, words);
    }

    /// A section was published with this free descriptor, mostly the last one.
    pub fn publish(&mut self, descriptor: u32)
        requires own { has self.old.free descriptor ≡ true }
        requires once { times descriptor self.old.free ≤ 1 }
        requires none { self.old.published ≡ None }
        ensures { self.new ≡ section_held self.old descriptor }
    {
        take_out(&mut self.free, descriptor);
        self.published = Some(descriptor);
    }

    /// A run of this descriptor came to its end: where it is the published one, it goes into limbo.
    pub fn end_run(&mut self, descriptor: u32)
        ensures { self.new ≡ section_over self.old descriptor }
    {
        if let Some(own) = self.published {
            if own == descriptor {
                self.limbo.push_reserved(descriptor);
                self.published = None;
            }
        }
    }
}
