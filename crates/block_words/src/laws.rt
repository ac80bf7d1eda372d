//! The laws of logs in parts, each on a contract.
ghost use Rattle.std.specs.Prelude.{◌≡◌, ◌+◌, ◌<◌, ◌≤◌, ℕ, suc, true, false, List, [], ◌∷◌, ◌++◌, length};
ghost use Rattle.table_words.specs.declared.spot.Spot.{Spot};
ghost use Rattle.table_words.specs.declared.spot.Spot.TheVariants.{LogWord, LinkWord};
ghost use Rattle.table_words.specs.Places.{part_words};
ghost use Rattle.table_words.specs.Seen.{put, upd};
ghost use Rattle.block_words.specs.Blocks.{link_spot, log_spot, room, most_blocks, has_block, link_at, HasBlocks, IsEmpty, is_apart, IsPrefix, blocks_in, log_in};

/// A descriptor whose own log words and link are 0 has no block, and an empty log.
pub fn a_descriptor_begins_alone()
    ensures { (log : ℕ → ℕ) (word : Spot → ℕ) (d : ℕ) → ((k : ℕ) → log k ≡ 0)
        → ((j : ℕ) → j < part_words → word (LogWord d j) ≡ 0) → word (LinkWord d) ≡ 0 → HasBlocks log word d [] }
{}

/// The link behind the last part, where the number of an empty block is put there that isn't one of the blocks, adds
/// this block and no log word.
pub fn a_link_adds_a_block()
    ensures { (log : ℕ → ℕ) (word : Spot → ℕ) (d b : ℕ) (blocks : List ℕ) → HasBlocks log word d blocks
        → has_block blocks b ≡ false → IsEmpty word b
        → HasBlocks log (put word (link_spot d blocks (length blocks)) (b + 1)) d (blocks ++ b ∷ []) }
{}

/// A word that is put where log word k stands is log word k.
pub fn a_commit_adds_a_word()
    ensures { (log : ℕ → ℕ) (word : Spot → ℕ) (d k v : ℕ) (blocks : List ℕ) → HasBlocks log word d blocks
        → k < room blocks → HasBlocks (upd log k v) (put word (log_spot d blocks k) v) d blocks }
{}

/// A word that stands elsewhere plays no part: one of another descriptor, of a block that isn't one of these, or one
/// that is no word of logs.
pub fn other_words_play_no_part()
    ensures { (log : ℕ → ℕ) (word : Spot → ℕ) (d v : ℕ) (blocks : List ℕ) (a : Spot) → HasBlocks log word d blocks
        → is_apart d blocks a ≡ true → HasBlocks log (put word a v) d blocks }
{}

/// Who knows the first blocks alone finds the log there: log word k where it would look for it.
pub fn prefixes_find_the_log()
    ensures spot { (d k : ℕ) (links blocks : List ℕ) → IsPrefix links blocks → k < room links
        → log_spot d links k ≡ log_spot d blocks k }
    ensures word { (log : ℕ → ℕ) (word : Spot → ℕ) (d k : ℕ) (links blocks : List ℕ) → HasBlocks log word d blocks
        → IsPrefix links blocks → k < room links → word (log_spot d links k) ≡ log k }
{}

/// Who knows the first blocks alone finds the link behind them: 0 where they are all, and otherwise the next block.
pub fn links_lead_on()
    ensures spot { (d : ℕ) (links blocks : List ℕ) → IsPrefix links blocks
        → link_spot d links (length links) ≡ link_spot d blocks (length links) }
    ensures word { (log : ℕ → ℕ) (word : Spot → ℕ) (d : ℕ) (links blocks : List ℕ) → HasBlocks log word d blocks
        → IsPrefix links blocks → word (link_spot d links (length links)) ≡ link_at blocks (length links) }
    ensures last { (links blocks : List ℕ) → IsPrefix links blocks → link_at blocks (length links) ≡ 0
        → links ≡ blocks }
    ensures next { (b : ℕ) (links blocks : List ℕ) → IsPrefix links blocks → link_at blocks (length links) ≡ suc b
        → IsPrefix (links ++ b ∷ []) blocks }
{}

/// A descriptor's blocks and its log are what is read off the words.
pub fn logs_are_read()
    ensures blocks { (log : ℕ → ℕ) (word : Spot → ℕ) (d : ℕ) (blocks : List ℕ) → HasBlocks log word d blocks
        → length blocks ≤ most_blocks → blocks_in word d ≡ blocks }
    ensures log { (log : ℕ → ℕ) (word : Spot → ℕ) (d k : ℕ) (blocks : List ℕ) → HasBlocks log word d blocks
        → length blocks ≤ most_blocks → log_in word d k ≡ log k }
{}
