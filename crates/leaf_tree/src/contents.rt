//! The contents of a closed table.
ghost use Rattle.std.specs.Prelude.{◌≡◌, ◌+◌, ◌-◌, ◌<◌, ◌++◌, ◌∷◌, [], ℕ, IfOk, OnOk};
ghost use Rattle.std.specs.FinMap.{entries};
ghost use Rattle.tree_walks.specs.structure_laws.specs.map_history.specs.Replay.{Pairs};
ghost use Rattle.tree_walks.specs.structure_laws.specs.body_terms.specs.Memory.{cell_of};
ghost use Rattle.tree_walks.specs.structure_laws.specs.body_terms.specs.Word.{value_of};
ghost use Rattle.tree_walks.specs.structure_laws.specs.table_words.specs.Places.{slot_count};
ghost use Rattle.tree_walks.specs.structure_laws.specs.table_words.specs.declared.spot.Spot.TheVariants.{Cell};
ghost use Rattle.tree_walks.specs.tree_laws.specs.Leaves.{tree};
ghost use Rattle.lock_walks.specs.version_words.specs.TableState.{word_of};
ghost use Rattle.lock_walks.specs.try_lock.specs.Contents.{StandFor};
ghost use Rattle.leaf_tree.specs.Stands.{Waits, Gathers};

use crate::tree::LeafTree;
use lock_walks::version_words::{Words, words_are_reached};
use std::alloc::{AllocError, Global};

/// No table has more node slots than these.
const MOST_SLOTS: u32 = 262_181;

/// The slots below this one are the root's and the sentinels'.
const FIRST_REAL: u32 = 3;

impl LeafTree {
    /// The value of a node's cell.
    fn node(&self, words: &Words<LeafTree>, slot: u32, cell: u32) -> u32
        requires slot { slot < slot_count words.now.layout 3 }
        requires cell { cell < 5 }
        ensures { result ≡ value_of (word_of tree words.now (Cell (cell_of 0 slot cell))) }
    {
        words_are_reached(words);
        words.cell(5 * slot + cell).value()
    }

    /// Adds a leaf's pair, or lets an inner node's children wait, the left one before the right one.
    fn visit(
        &self,
        words: &Words<LeafTree>,
        slot: u32,
        waiting: &mut Vec<u32>,
        items: &mut Vec<(u32, u32)>,
    ) -> Result<(), AllocError>
        requires slot { slot < slot_count words.now.layout 3 }
        ensures visited { OnOk result ((pairs : Pairs) (stand : StandFor tree words.now pairs) (made : ℕ)
            → Waits words.now pairs stand made waiting.old.items slot items.old.items
            → Gathers words.now pairs stand (made + 1) waiting.new.items items.new.items) }
    {
        let left = self.node(words, slot, 2);
        let right = self.node(words, slot, 3);
        if left != 0 {
            let_wait(waiting, left, right)?;
            return Ok(());
        }
        if slot < FIRST_REAL {
            return Ok(());
        }
        let key = self.node(words, slot, 1);
        items.push((key, right))?;
        Ok(())
    }

    /// The pairs of all leaves but the sentinels, in order of key.
    pub(crate) fn pairs(
        &self,
        alloc: Global,
        words: &Words<LeafTree>,
    ) -> Result<Vec<(u32, u32)>, AllocError>
        requires stand { (pairs : Pairs) × StandFor tree words.now pairs }
        ensures contents { IfOk result (λ items. (pairs : Pairs) → StandFor tree words.now pairs
            → items.items ≡ entries pairs) }
    {
        words_are_reached(words);
        let mut items = Vec::new(alloc);
        let mut waiting = Vec::new(alloc);
        waiting.push(0)?;
        for _made in 0..MOST_SLOTS {
            let Some(slot) = waiting.pop() else {
                return Ok(items);
            };
            self.visit(words, slot, &mut waiting, &mut items)?;
        }
        Ok(items)
    }
}

/// The nodes to which both links lead wait, the left one before the right one.
fn let_wait(waiting: &mut Vec<u32>, left: u32, right: u32) -> Result<(), AllocError>
    requires { 0 < left }
    ensures waits { OnOk result (waiting.new.items ≡ (waiting.old.items ++ (right - 1) ∷ []) ++ (left - 1) ∷ []) }
{
    waiting.push(right.saturating_sub(1))?;
    waiting.push(left - 1)?;
    Ok(())
}
