// Worked rows of logs that are kept in parts, whatever number of words a part has.
use block_words::table_words::{PART_WORDS, Spot};
use block_words::{blocks_for, link_spot, log_spot};

#[test]
fn a_log_goes_on_in_blocks(rt: HostRuntime) {
    let part = PART_WORDS as u32;
    let blocks = [9, 4];
    assert!(rt; log_spot(3, &blocks, part - 1) == Spot::LogWord(3, part - 1));
    assert!(rt; log_spot(3, &blocks, part) == Spot::BlockWord(9, 0));
    assert!(rt; log_spot(3, &blocks, 3 * part - 1) == Spot::BlockWord(4, part - 1));
    assert!(rt; link_spot(3, &[]) == Spot::LinkWord(3));
    assert!(rt; link_spot(3, &blocks) == Spot::BlockLink(4));
}

#[test]
fn a_log_wants_a_block_for_each_further_part(rt: HostRuntime) {
    let part = PART_WORDS as u32;
    for (words, blocks) in [
        (0, 0),
        (1, 0),
        (part, 0),
        (part + 1, 1),
        (2 * part, 1),
        (2 * part + 1, 2),
    ] {
        assert!(rt; blocks_for(words) == blocks, "{words}");
    }
}
