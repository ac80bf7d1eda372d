//! The contents of a closed table.
ghost use Rattle.std.specs.Prelude.{◌≡◌, ◌≢◌, ◌+◌, ◌<◌, ℕ, IfOk};
ghost use Rattle.std.specs.FinMap.{entries};
ghost use Rattle.list_walks.specs.structure_laws.specs.map_history.specs.Replay.{Pairs};
ghost use Rattle.list_walks.specs.structure_laws.specs.body_terms.specs.Memory.{cell_of};
ghost use Rattle.list_walks.specs.structure_laws.specs.body_terms.specs.Word.{value_of};
ghost use Rattle.list_walks.specs.structure_laws.specs.table_words.specs.Places.{slot_count};
ghost use Rattle.list_walks.specs.structure_laws.specs.table_words.specs.declared.spot.Spot.TheVariants.{Cell};
ghost use Rattle.list_walks.specs.list_laws.specs.list_bodies.specs.List.{next_of, slot_in};
ghost use Rattle.list_walks.specs.list_laws.specs.Nodes.{list};
ghost use Rattle.lock_walks.specs.version_words.specs.TableState.{word_of};
ghost use Rattle.lock_walks.specs.try_lock.specs.Contents.{StandFor};
ghost use Rattle.sorted_list.specs.Stands.{Gathers};

use crate::list::SortedList;
use lock_walks::version_words::{Words, words_are_reached};
use std::alloc::{AllocError, Global};

/// No table has more node slots than these.
const MOST_SLOTS: u32 = 262_180;

/// The head's slot.
const HEAD: u32 = 0;

/// The tail's slot.
const TAIL: u32 = 1;

impl SortedList {
    /// The value of a node's cell.
    fn node(&self, words: &Words<SortedList>, slot: u32, cell: u32) -> u32
        requires slot { slot < slot_count words.now.layout 2 }
        requires cell { cell < 5 }
        ensures { result ≡ value_of (word_of list words.now (Cell (cell_of 0 slot cell))) }
    {
        words_are_reached(words);
        words.cell(5 * slot + cell).value()
    }

    /// The node to which a node's link leads.
    fn behind(&self, words: &Words<SortedList>, slot: u32) -> u32
        requires slot { slot < slot_count words.now.layout 2 }
        ensures { result ≡ slot_in (word_of list words.now (Cell (next_of slot))) }
    {
        self.node(words, slot, 2).saturating_sub(1)
    }

    /// Adds a node's pair, and goes on to the node behind it.
    fn pass(
        &self,
        words: &Words<SortedList>,
        slot: u32,
        items: &mut Vec<(u32, u32)>,
    ) -> Result<u32, AllocError>
        requires slot { slot < slot_count words.now.layout 2 }
        requires inner { slot ≢ 1 }
        ensures passed { IfOk result (λ next. (pairs : Pairs) (stand : StandFor list words.now pairs) (passed : ℕ)
            → Gathers words.now pairs stand passed slot items.old.items
            → Gathers words.now pairs stand (passed + 1) next items.new.items) }
    {
        let key = self.node(words, slot, 1);
        let value = self.node(words, slot, 3);
        items.push((key, value))?;
        Ok(self.behind(words, slot))
    }

    /// The pairs of the nodes between the head and the tail, in order of key.
    pub(crate) fn pairs(
        &self,
        alloc: Global,
        words: &Words<SortedList>,
    ) -> Result<Vec<(u32, u32)>, AllocError>
        requires stand { (pairs : Pairs) × StandFor list words.now pairs }
        ensures contents { IfOk result (λ items. (pairs : Pairs) → StandFor list words.now pairs
            → items.items ≡ entries pairs) }
    {
        words_are_reached(words);
        let mut items = Vec::new(alloc);
        let mut slot = self.behind(words, HEAD);
        for _passed in 0..MOST_SLOTS {
            if slot == TAIL {
                return Ok(items);
            }
            slot = self.pass(words, slot, &mut items)?;
        }
        Ok(items)
    }
}
