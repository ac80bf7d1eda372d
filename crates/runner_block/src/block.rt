//! What a runner's code keeps, in one block of memory.
ghost use Rattle.std.specs.Prelude.{◌≡◌, ◌<◌, ◌≤◌, ◌⊎◌, length, true, false, Some};
ghost use Rattle.machine_states.specs.runner_parts.specs.Tests.{has};
ghost use Rattle.runner_block.specs.Blocks.{block_looked, block_stored, block_cleared, block_saw, block_made, block_slot_retired, block_retired, block_released};
ghost use Rattle.machine_states.specs.epoch_core.specs.Lists.{times};
ghost use Rattle.machine_states.specs.runner_steps.specs.InRun.{make_slot};
ghost use Rattle.runner_block.specs.Links.{names};
ghost use Rattle.runner_block.specs.Room.{AreFew};
ghost use Rattle.machine_states.specs.runner_parts.specs.Lists.{slot_retired};
ghost use Rattle.runner_block.specs.Looks.{MayTake};

use crate::kept::Kept;
use crate::place::RunPlace;
use machine_states::body_terms::{Place, Word};
use machine_states::table_words::Layout;

/// The stage and the lists, and of a run in progress its place.
#[derive(Drop)]
pub struct Block {
    pub lists: Kept,
    pub place: RunPlace,
}

impl Block {
    /// A word of an own slot was loaded. Of a descriptor nothing is kept.
    #[inline(always)]
    pub fn loaded(&mut self, layout: Layout, node_slots: u32, slot: u32, word: u32, found: u64)
        requires own { MayTake self.old slot }
        requires room { node_slots ≡ self.old.lists.room }
        ensures { self.new ≡ block_looked layout self.old slot word found }
    {
        if slot < node_slots {
            self.looked(layout, slot, word, found);
        }
    }

    /// A cell of an own slot was loaded. In a run it is one of the slot that a Make fills, which the first
    /// such load takes: so of the others nothing is kept, and they make no call.
    #[inline(always)]
    fn looked(&mut self, layout: Layout, slot: u32, word: u32, found: u64)
        requires own { MayTake self.old slot }
        requires node { slot < self.old.lists.room }
        ensures { self.new ≡ block_looked layout self.old slot word found }
    {
        if !self.place.inside {
            self.lists.look(layout, slot, word, found);
        } else if !self.place.making {
            self.lists.take(slot);
            self.place.making = true;
            self.place.worn = false;
        }
    }

    /// This number was stored into a word of an own slot.
    #[inline(always)]
    pub fn stored(&mut self, layout: Layout, number: u64)
        ensures { self.new ≡ block_stored layout self.old number }
    {
        if Word::from_bits(number).version() == layout.version_max {
            self.place.worn = true;
        }
    }

    /// 0 was stored into a word of this own block of a log. In a run it is the block that is to be linked.
    pub fn cleared(&mut self, block: u32)
        requires own { self.old.place.inside ≡ true
            → make_slot self.old.lists.blocks.links.block self.old.lists.blocks.lists.free ≡ Some block }
        requires once { self.old.place.inside ≡ true → times block self.old.lists.blocks.lists.free ≤ 1 }
        ensures { self.new ≡ block_cleared self.old block }
    {
        if self.place.inside {
            self.lists.empty_block(block);
        }
    }

    /// Whether this word of a cell that was loaded may make the runner sure of a descriptor under which blocks lie in its
    /// limbo: it does where the cell is a lock's.
    #[inline(always)]
    pub fn awaits(&self, word: u64) -> bool
        ensures none { result ≡ false → self.now.place.inside ≡ false
            → (length self.now.lists.blocks.lists.limbo ≡ 0) ⊎ (names self.now.lists.named word ≡ false) }
        ensures some { result ≡ true → self.now.place.inside ≡ false }
        ensures names { result ≡ true → names self.now.lists.named word ≡ true }
    {
        !self.place.inside && self.lists.is_awaited(word)
    }

    /// A cell was loaded, whose word made the runner sure of the descriptor that it names, or didn't.
    #[inline(always)]
    pub fn saw(&mut self, sure: bool, word: u64)
        requires { sure ≡ true → names self.old.lists.named word ≡ true }
        ensures { self.new ≡ block_saw self.old sure word }
    {
        if sure {
            self.lists.give_back(Word::from_bits(word).value() - 1);
        }
    }

    /// The commit of a Make won or lost.
    pub fn made(&mut self, slot: u32, won: bool)
        requires own { has self.old.lists.part.nodes.hand slot ≡ true }
        requires few { self.old.place.agreed < 64 }
        ensures { self.new ≡ block_made self.old slot won }
    {
        self.lists.made(slot, won, self.place.worn);
        self.place.agreed += 1;
        self.place.making = false;
        self.place.worn = false;
    }

    /// The commit of a retirement won or lost. Where it won the slot goes into limbo, with the epoch that
    /// the run loaded last for it.
    pub fn slot_retired(&mut self, slot: u32, won: bool)
        requires room { won ≡ true
            → AreFew self.old.lists.room (slot_retired self.old.lists.part.nodes slot self.old.place.epoch) }
        requires few { self.old.place.agreed < 64 }
        ensures { self.new ≡ block_slot_retired self.old slot won }
    {
        if won {
            self.lists.retire_slot(slot, self.place.epoch);
        }
        self.place.agreed += 1;
    }

    /// The epoch was loaded for the retirement of a node slot.
    pub fn retired(&mut self, epoch: u64)
        ensures { self.new ≡ block_retired self.old epoch }
    {
        self.place.epoch = epoch;
    }

    /// A lock was released, so the run is at its end, and with the section's own lock it is over.
    pub fn released(&mut self, lock: Place)
        ensures { self.new ≡ block_released self.old lock }
    {
        if lock == self.place.lock {
            self.lists.end_run(self.place.descriptor);
        }
        self.place.inside = false;
    }
}
