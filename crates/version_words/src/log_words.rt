//! Where the next word of a run's log stands, and the next link.
ghost use Rattle.std.specs.Prelude.{◌≡◌, ◌-◌, ◌≤◌};
ghost use Rattle.version_words.specs.Place.{word_in_part, kept_log, link_behind};

use machine_states::table_words::{PART_WORDS, Spot};
use runner_block::Block;

/// The next word of the log of a run. Most logs have one part: they ask for no more than how many words were agreed on.
#[inline(always)]
pub(crate) fn next_spot(kept: &Block) -> Spot
    requires { kept.now.lists.blocks.links.start ≤ kept.now.place.agreed }
    ensures { result ≡ kept_log kept.now.place kept.now.lists.blocks.links }
{
    let place = kept.place;
    if (place.agreed as usize) < PART_WORDS {
        Spot::LogWord(place.descriptor, place.agreed)
    } else {
        word_of_last(kept)
    }
}

/// That word, where it is looked for in the log's last part.
#[inline(never)]
fn word_of_last(kept: &Block) -> Spot
    requires { kept.now.lists.blocks.links.start ≤ kept.now.place.agreed }
    ensures { let links = kept.now.lists.blocks.links in
        result ≡ word_in_part kept.now.place.descriptor links.last (kept.now.place.agreed - links.start) }
{
    let word = kept.place.agreed - kept.lists.part_start();
    match kept.lists.last_link() {
        None => Spot::LogWord(kept.place.descriptor, word),
        Some(block) => Spot::BlockWord(block, word),
    }
}

/// The link behind the last part of the log of a run.
pub(crate) fn next_link(kept: &Block) -> Spot
    ensures { result ≡ link_behind kept.now.place.descriptor kept.now.lists.blocks.links.last }
{
    match kept.lists.last_link() {
        None => Spot::LinkWord(kept.place.descriptor),
        Some(block) => Spot::BlockLink(block),
    }
}
