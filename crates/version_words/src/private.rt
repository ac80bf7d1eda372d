//! Steps on the words of own slots.
ghost use Rattle.std.specs.Prelude.{◌≡◌, ◌<◌, ◌+◌, ℕ};
ghost use Rattle.machine_states.specs.table_words.specs.Places.{slot_count, descriptor_count};
ghost use Rattle.machine_states.specs.runner_parts.specs.declared.event.EventKind.TheVariants as kinds;
ghost use Rattle.machine_states.specs.runner_steps.specs.Outside.{blocks_from};
ghost use Rattle.version_words.specs.Private.{IsWithin, private_spot};
ghost use Rattle.version_words.specs.TableState.{IsOf};
ghost use Rattle.version_words.specs.Events.{IsEnabled, Makes, start_of};

use crate::plays;
use crate::runner::Runner;
use crate::table::FlockTable;
use machine_states::runner_steps::{block_spot, descriptor_spot};
use machine_states::structure_laws::Structure;
use machine_states::table_words::Spot;

impl<S: Structure> FlockTable<S> {
    /// A word of a slot: a cell of a node slot, or a word of a descriptor or of a block.
    #[inline(always)]
    fn private_spot(&self, slot: u32, word: u32) -> Spot
        requires { IsWithin (S.meaning self.now.structure) self.now.layout slot word }
        ensures { result ≡ private_spot (S.meaning self.now.structure) self.now.layout slot word }
    {
        let slots = self.setup.node_slots;
        if slot < slots {
            Spot::Cell(self.setup.first_cell + 5 * slot + word)
        } else if slot < self.setup.first_block {
            descriptor_spot(slot - slots, word)
        } else {
            block_spot(slot - self.setup.first_block, word)
        }
    }

    /// A word of an own slot: a cell of an own free node slot or of one in the hand, a word of an own free descriptor,
    /// a word of an own free block, or in a run the cell of the node slot that a Make fills. Descriptors are numbered
    /// after the node slots, and blocks after the descriptors.
    #[inline(always)]
    pub fn private_load(&self, mut runner: Runner<S>, slot: u32, word: u32) -> (Runner<S>, u64)
        requires own { IsOf self.now runner }
        requires next { IsEnabled (S.meaning self.now.structure) (kinds.PrivateLoad slot word) runner }
        ensures own { IsOf self.now result.0 }
        ensures event { Makes (S.meaning self.now.structure) (kinds.PrivateLoad slot word) result.1 runner result.0 }
    {
        let nodes = self.setup.node_slots;
        let spot = self.private_spot(slot, word);
        let found = self.load::<plays::PrivateLoad>(&mut runner.seat, spot);
        runner
            .kept
            .loaded(self.setup.layout, nodes, slot, word, found);
        (runner, found)
    }

    /// A word of an own free descriptor, or in a run the cell of the node slot that a Make fills, becomes this number;
    /// a word of an own free block, or in a run of the block that is to be linked, becomes 0. Descriptors are numbered
    /// after the node slots, and blocks after the descriptors.
    #[inline(always)]
    pub fn private_store(
        &self,
        mut runner: Runner<S>,
        slot: u32,
        word: u32,
        number: u64,
    ) -> Runner<S>
        requires own { IsOf self.now runner }
        requires next { IsEnabled (S.meaning self.now.structure) (kinds.PrivateStore slot word number) runner }
        ensures own { IsOf self.now result }
        ensures event { (found : ℕ)
            → Makes (S.meaning self.now.structure) (kinds.PrivateStore slot word number) found runner result }
    {
        let spot = self.private_spot(slot, word);
        self.store::<plays::PrivateStore>(&mut runner.seat, spot, number);
        if slot < self.setup.first_block {
            runner.kept.stored(self.setup.layout, number);
            runner
        } else {
            runner.kept.cleared(slot - self.setup.first_block);
            runner
        }
    }

    /// A word of an own free block, or in a run of the block that is to be linked, becomes 0, as `private_store` of the
    /// slot that the block is numbered as.
    pub fn empty_word(&self, runner: Runner<S>, block: u32, word: u32) -> Runner<S>
        requires own { IsOf self.now runner }
        requires next { let m = S.meaning self.now.structure in
            IsEnabled m (kinds.PrivateStore (blocks_from m self.now.layout + block) word 0) runner }
        ensures own { IsOf self.now result }
        ensures event { let m = S.meaning self.now.structure in
            (found : ℕ)
            → Makes m (kinds.PrivateStore (blocks_from m self.now.layout + block) word 0) found runner result }
    {
        let slot = self.setup.first_block + block;
        self.private_store(runner, slot, word, 0)
    }

    /// A word of an own free descriptor, whose words begin at this start, as `private_load` of the slot that the
    /// descriptor is numbered as: of descriptors nothing is kept.
    #[inline(always)]
    pub fn descriptor_load(
        &self,
        mut runner: Runner<S>,
        descriptor: u32,
        start: usize,
        word: u32,
    ) -> (Runner<S>, u64)
        requires own { IsOf self.now runner }
        requires few { descriptor < descriptor_count self.now.layout }
        requires start { start ≡ start_of (S.meaning self.now.structure) self.now descriptor }
        requires next { let m = S.meaning self.now.structure in
            IsEnabled m (kinds.PrivateLoad (slot_count self.now.layout m.fixed_slots + descriptor) word) runner }
        ensures own { IsOf self.now result.0 }
        ensures event { let m = S.meaning self.now.structure in
            Makes m (kinds.PrivateLoad (slot_count self.now.layout m.fixed_slots + descriptor) word)
            result.1 runner result.0 }
    {
        let spot = descriptor_spot(descriptor, word);
        let at = self.setup.sizes.word_at(descriptor, start, word);
        let found = self.load_at::<plays::PrivateLoad>(&mut runner.seat, spot, at);
        (runner, found)
    }

    /// A word of an own free descriptor becomes this number, as `private_store` of the slot that the descriptor is
    /// numbered as.
    #[inline(always)]
    pub fn descriptor_store(
        &self,
        mut runner: Runner<S>,
        descriptor: u32,
        start: usize,
        word: u32,
        number: u64,
    ) -> Runner<S>
        requires own { IsOf self.now runner }
        requires few { descriptor < descriptor_count self.now.layout }
        requires start { start ≡ start_of (S.meaning self.now.structure) self.now descriptor }
        requires next { let m = S.meaning self.now.structure in
            IsEnabled m
            (kinds.PrivateStore (slot_count self.now.layout m.fixed_slots + descriptor) word number) runner }
        ensures own { IsOf self.now result }
        ensures event { let m = S.meaning self.now.structure in
            (found : ℕ)
            → Makes m (kinds.PrivateStore (slot_count self.now.layout m.fixed_slots + descriptor) word number)
            found runner result }
    {
        let spot = descriptor_spot(descriptor, word);
        let at = self.setup.sizes.word_at(descriptor, start, word);
        self.store_at::<plays::PrivateStore>(&mut runner.seat, spot, at, number);
        runner
    }
}
