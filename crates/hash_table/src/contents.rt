//! The contents of a closed table in buckets: of `HashTable`, or of one that differs from it in what it serves alone.
ghost use Rattle.std.specs.Prelude.{◌≡◌, ◌+◌, ◌*◌, ◌<◌, ◌^◌, IfOk, OnOk};
ghost use Rattle.std.specs.FinMap.{entries};
ghost use Rattle.machine_states.specs.map_history.specs.Replay.{Pairs};
ghost use Rattle.machine_states.specs.body_terms.specs.Memory.{cell_of};
ghost use Rattle.machine_states.specs.body_terms.specs.Word.{value_of};
ghost use Rattle.machine_states.specs.table_words.specs.Places.{slot_count};
ghost use Rattle.machine_states.specs.table_words.specs.declared.spot.Spot.TheVariants.{Cell};
ghost use Rattle.bucket_walks.specs.bucket_laws.specs.Buckets.{buckets_meaning};
ghost use Rattle.lock_walks.specs.version_words.specs.TableState.{HasWord, word_of};
ghost use Rattle.lock_walks.specs.try_lock.specs.Contents.{StandFor};
ghost use Rattle.hash_table.specs.Stands.{HasBuckets, HasGathered};

use crate::table::HashTable;
use lock_walks::version_words::{Words, words_are_reached};
use machine_states::body_terms::Place;
use machine_states::structure_laws::Structure;
use std::alloc::{AllocError, Global};

/// No table has more node slots than these.
const MOST_SLOTS: u32 = 262_178;

impl HashTable {
    /// The value of a cell.
    fn value_at<S: Structure>(&self, words: &Words<S>, place: Place) -> u32
        requires buckets { HasBuckets self.now.bits (S.meaning words.now.structure) }
        requires place { HasWord (buckets_meaning self.now.bits) words.now (Cell place) }
        ensures { result ≡ value_of (word_of (buckets_meaning self.now.bits) words.now (Cell place)) }
    {
        words.cell(place).value()
    }

    /// The value of a node's cell.
    fn node<S: Structure>(&self, words: &Words<S>, slot: u32, cell: u32) -> u32
        requires buckets { HasBuckets self.now.bits (S.meaning words.now.structure) }
        requires slot { slot < slot_count words.now.layout 0 }
        requires cell { cell < 5 }
        ensures { result ≡ value_of (word_of (buckets_meaning self.now.bits) words.now
            (Cell (cell_of (3 * 2 ^ self.now.bits) slot cell))) }
    {
        words_are_reached(words);
        self.value_at(words, self.cells() + 5 * slot + cell)
    }

    /// The link in a bucket's head.
    fn head<S: Structure>(&self, words: &Words<S>, bucket: u32) -> u32
        requires buckets { HasBuckets self.now.bits (S.meaning words.now.structure) }
        requires bucket { bucket < 2 ^ self.now.bits }
        ensures { result ≡ value_of (word_of (buckets_meaning self.now.bits) words.now (Cell (3 * bucket + 2))) }
    {
        self.value_at(words, 3 * bucket + 2)
    }

    /// Adds the pairs of a bucket's chain, from its head.
    fn gather<S: Structure>(
        &self,
        words: &Words<S>,
        bucket: u32,
        items: &mut Vec<(u32, u32)>,
    ) -> Result<(), AllocError>
        requires buckets { HasBuckets self.now.bits (S.meaning words.now.structure) }
        requires bucket { bucket < 2 ^ self.now.bits }
        requires stand { (pairs : Pairs) × StandFor (buckets_meaning self.now.bits) words.now pairs }
        requires before { (pairs : Pairs) (stand : StandFor (buckets_meaning self.now.bits) words.now pairs)
            → HasGathered self.now.bits words.now pairs stand bucket items.old.items }
        ensures gathered { OnOk result ((pairs : Pairs)
            (stand : StandFor (buckets_meaning self.now.bits) words.now pairs)
            → HasGathered self.now.bits words.now pairs stand (bucket + 1) items.new.items) }
    {
        words_are_reached(words);
        let mut link = self.head(words, bucket);
        for _made in 0..MOST_SLOTS {
            if link == 0 {
                return Ok(());
            }
            let slot = link - 1;
            let key = self.node(words, slot, 1);
            let value = self.node(words, slot, 2);
            items.push((key, value))?;
            link = self.node(words, slot, 3);
        }
        Ok(())
    }

    /// The pairs of all chains of a table with as many buckets, in order of key.
    pub fn pairs_in<S: Structure>(
        &self,
        alloc: Global,
        words: &Words<S>,
    ) -> Result<Vec<(u32, u32)>, AllocError>
        requires buckets { HasBuckets self.now.bits (S.meaning words.now.structure) }
        requires stand { (pairs : Pairs) × StandFor (buckets_meaning self.now.bits) words.now pairs }
        ensures contents { IfOk result (λ items. (pairs : Pairs)
            → StandFor (buckets_meaning self.now.bits) words.now pairs → items.items ≡ entries pairs) }
    {
        let mut items = Vec::new(alloc);
        for bucket in 0..1u32 << self.bits {
            self.gather(words, bucket, &mut items)?;
        }
        items.sort_unstable();
        Ok(items)
    }
}
