//! How a runner's own blocks change hands.
ghost use Rattle.std.specs.Prelude.{◌≡◌, ◌==◌, map, not, IfOk, OnOk};
ghost use Rattle.std.specs.List.{filter};
ghost use Rattle.runner_parts.specs.Lists.{block_taken, block_back, all_under, blocks_retired, blocks_freed, blocks_given_back, blocks_seen};
ghost use Rattle.guard_core.specs.Moves.{is_unnamed};

use crate::entries::Waiting;
use crate::lists::{Blocks, Guards};
use crate::lists_change::{is_unnamed, without};
use std::alloc::{AllocError, Global};
use structure_laws::body_terms::Word;

impl Blocks {
    /// A block is taken out of the free list, to be emptied and linked.
    pub fn take(&mut self, alloc: Global, block: u32) -> Result<(), AllocError>
        ensures { OnOk result (self.new ≡ block_taken self.old block) }
    {
        self.free = without(alloc, &self.free, block)?;
        Ok(())
    }

    /// A block whose link was lost comes back.
    pub fn put_back(&mut self, block: u32) -> Result<(), AllocError>
        ensures { OnOk result (self.new ≡ block_back self.old block) }
    {
        self.free.push(block)?;
        Ok(())
    }

    /// At the end of a run the blocks that it linked go into limbo under its descriptor.
    pub fn retire(&mut self, alloc: Global, won: &[u32], descriptor: u32) -> Result<(), AllocError>
        ensures { OnOk result (self.new ≡ blocks_retired self.old won.now descriptor) }
    {
        let waiting = all_under(alloc, won, descriptor)?;
        self.limbo.extend_from_slice(&waiting)?;
        Ok(())
    }

    /// At the end of a sweep that read these guard words, what lies under a descriptor that none of them names goes
    /// from limbo to the free list.
    pub fn sweep(&mut self, alloc: Global, words: &[u64]) -> Result<(), AllocError>
        ensures { OnOk result (self.new ≡ blocks_freed (is_unnamed words.now) self.old) }
    {
        let free = blocks_unnamed(alloc, &self.limbo, words)?;
        self.limbo = blocks_named(alloc, &self.limbo, words)?;
        self.free.extend_from_slice(&free)?;
        Ok(())
    }

    /// The runner becomes sure of this descriptor: what lies under it goes from limbo to the free list.
    pub fn give_back(&mut self, alloc: Global, descriptor: u32) -> Result<(), AllocError>
        ensures { OnOk result (self.new ≡ blocks_given_back descriptor self.old) }
    {
        let free = blocks_under(alloc, &self.limbo, descriptor)?;
        self.limbo = blocks_not_under(alloc, &self.limbo, descriptor)?;
        self.free.extend_from_slice(&free)?;
        Ok(())
    }

    /// A word was read by a runner that guards this: where it is a lock's and names the guarded descriptor, the runner
    /// is sure of that one.
    pub fn see_named(
        &mut self,
        alloc: Global,
        guards: &Guards,
        lock: bool,
        word: u64,
    ) -> Result<(), AllocError>
        ensures { OnOk result (self.new ≡ blocks_seen guards.now lock word self.old) }
    {
        let value = Word::from_bits(word).value();
        if lock && value != 0 && guards.named == Some(value - 1) {
            self.give_back(alloc, value - 1)
        } else {
            Ok(())
        }
    }
}

/// These blocks, each with this descriptor.
fn all_under(alloc: Global, blocks: &[u32], descriptor: u32) -> Result<Vec<Waiting>, AllocError>
    ensures { IfOk result (λ v. v.items ≡ all_under descriptor blocks.now) }
{
    blocks
        .iter()
        .copied()
        .map(|block| Waiting { block, descriptor })
        .collect(alloc)
}

/// The blocks that lie in limbo under a descriptor that none of these guard words names.
fn blocks_unnamed(alloc: Global, limbo: &[Waiting], words: &[u64]) -> Result<Vec<u32>, AllocError>
    ensures { IfOk result (λ v.
        v.items ≡ map (λ x. x.block) (filter (λ x. is_unnamed words.now x.descriptor) limbo.now)) }
{
    limbo
        .iter()
        .copied()
        .filter(|x| is_unnamed(words, x.descriptor))
        .map(|x| x.block)
        .collect(alloc)
}

/// The other entries.
fn blocks_named(alloc: Global, limbo: &[Waiting], words: &[u64]) -> Result<Vec<Waiting>, AllocError>
    ensures { IfOk result (λ v. v.items ≡ filter (λ x. not (is_unnamed words.now x.descriptor)) limbo.now) }
{
    limbo
        .iter()
        .copied()
        .filter(|x| !is_unnamed(words, x.descriptor))
        .collect(alloc)
}

/// The blocks that lie in limbo under this descriptor.
fn blocks_under(alloc: Global, limbo: &[Waiting], descriptor: u32) -> Result<Vec<u32>, AllocError>
    ensures { IfOk result (λ v. v.items ≡ map (λ x. x.block) (filter (λ x. x.descriptor == descriptor) limbo.now)) }
{
    limbo
        .iter()
        .copied()
        .filter(|x| x.descriptor == descriptor)
        .map(|x| x.block)
        .collect(alloc)
}

/// The other entries.
fn blocks_not_under(
    alloc: Global,
    limbo: &[Waiting],
    descriptor: u32,
) -> Result<Vec<Waiting>, AllocError>
    ensures { IfOk result (λ v. v.items ≡ filter (λ x. not (x.descriptor == descriptor)) limbo.now) }
{
    limbo
        .iter()
        .copied()
        .filter(|x| !(x.descriptor == descriptor))
        .collect(alloc)
}
