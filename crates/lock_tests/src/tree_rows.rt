//! Tests on the search tree.
use crate::lone_scene::{Row, serve_lines};
use crate::texts::check;
use leaf_tree::LeafTree;
use std::alloc::{AllocError, Global};

/// The requests of these lines on a new tree, by one worker with so many node slots.
fn row_of(alloc: Global, nodes: u8, lines: &str) -> Result<Row, AllocError> {
    serve_lines(alloc, LeafTree::new(), nodes, lines)
}

/// That row as a text.
fn grown(alloc: Global, nodes: u8, lines: &str) -> Result<String, AllocError> {
    row_of(alloc, nodes, lines)?.shown(alloc)
}

/// That row as a text, with the loads of each plan.
fn planned(alloc: Global, nodes: u8, lines: &str) -> Result<String, AllocError> {
    row_of(alloc, nodes, lines)?.shown_with_loads(alloc)
}

/// The course of an insertion and a removal, and then the last one's in full.
fn removed(alloc: Global) -> Result<String, AllocError> {
    let row = row_of(alloc, 10, "ins 1 1\ndel 1\n")?;
    let (shown, last) = (row.shown_with_loads(alloc)?, row.last(alloc)?);
    format!(in alloc; "{shown}\n{last}")
}

#[test]
fn a_removal_has_nine_log_words_and_retires_two_slots(rt: HostRuntime) -> Result<(), AllocError> {
    // Its trail has the words (5, 2), which are value and version, (0, 1), (0, 2), (2, 3), (4, 2), (2, 2) and (0, 2),
    // and then the two slots. Eight node slots are free, and two in limbo.
    let trail = "4: 50 Answered(17179869184) [8589934597, 4294967296, 8589934592, 12884901890, \
        8589934596, 8589934594, 8589934592, 5, 4]";
    let shown = ["[5, 9]", "46 New, 50 Gone", "10 slots, []", trail, "(8, 2)"];
    check(&rt, rt.alloc(), removed(rt.alloc()), &shown)
}

#[test]
fn a_request_that_changes_nothing_makes_23_steps(rt: HostRuntime) -> Result<(), AllocError> {
    let row = planned(rt.alloc(), 10, "ins 5 70\nins 5 80\nget 5\nget 6\ndel 6\n");
    let told = "46 New, 23 Dup, 23 Val(70), 23 Absent, 23 Absent";
    check(
        &rt,
        rt.alloc(),
        row,
        &["[5, 8, 8, 7, 7]", told, "8 slots, [(5, 70)]"],
    )
}

#[test]
fn a_put_of_a_present_key_makes_a_leaf_and_retires_one(rt: HostRuntime) -> Result<(), AllocError> {
    let row = planned(rt.alloc(), 10, "put 5 70\nput 5 80\nget 5\n");
    let told = "46 New, 37 Was(70), 23 Val(80)";
    check(
        &rt,
        rt.alloc(),
        row,
        &["[5, 8, 8]", told, "8 slots, [(5, 80)]"],
    )
}

#[test]
fn an_inner_node_takes_the_parents_place(rt: HostRuntime) -> Result<(), AllocError> {
    let row = planned(
        rt.alloc(),
        10,
        "ins 2 2\nins 1 1\nins 3 3\ndel 1\nget 2\nget 3\n",
    );
    let told = "46 New, 46 New, 46 New, 50 Gone, 23 Val(2), 23 Val(3)";
    check(
        &rt,
        rt.alloc(),
        row,
        &["[5, 7, 10, 11, 10, 11]", told, "6 slots, [(2, 2), (3, 3)]"],
    )
}

/// A hundred insertions and removals of one key in turn, of which those that are as they should be are left out.
fn hundred_rounds(alloc: Global) -> Result<String, AllocError> {
    let lines = "ins 1 1\ndel 1\n".repeat(alloc, 100)?;
    let shown = planned(alloc, 18, &lines)?;
    let (loads, told) = (
        "5, 9, ".repeat(alloc, 99)?,
        "46 New, 50 Gone, ".repeat(alloc, 99)?,
    );
    shown
        .replace(alloc, loads.as_str(), "")?
        .replace(alloc, told.as_str(), "")
}

#[test]
fn slots_are_used_again(rt: HostRuntime) -> Result<(), AllocError> {
    let row = hundred_rounds(rt.alloc());
    check(
        &rt,
        rt.alloc(),
        row,
        &["[5, 9]", "46 New, 50 Gone", "18 slots, []"],
    )
}

#[test]
fn a_third_insertion_lacks_slots(rt: HostRuntime) -> Result<(), AllocError> {
    let row = grown(rt.alloc(), 4, "ins 1 1\nins 2 2\nins 3 3\n");
    let told = "46 New, 46 New, Short(Short { kind: Node, free: 0, limbo: 0, worn: 0, board: 0 })";
    check(&rt, rt.alloc(), row, &[told, "0 slots, [(1, 1), (2, 2)]"])
}

/// Seven insertions.
const GROW: &str = "ins 4 40\nins 2 20\nins 6 60\nins 1 10\nins 3 30\nins 5 50\nins 7 70\n";

/// The tree after these, and after removals too, of left and right leaves of left and right parents.
fn grown_and_less(alloc: Global) -> Result<String, AllocError> {
    let less = format!(in alloc; "{GROW}del 1\ndel 7\ndel 5\ndel 4\n")?;
    let (grown, less) = (grown(alloc, 16, GROW)?, grown(alloc, 16, &less)?);
    format!(in alloc; "{grown}\n{less}")
}

#[test]
fn pairs_are_in_order_of_key_after_removals_on_all_sides(
    rt: HostRuntime,
) -> Result<(), AllocError> {
    let shown = [
        "46 New, 46 New, 46 New, 46 New, 46 New, 46 New, 46 New",
        "2 slots, [(1, 10), (2, 20), (3, 30), (4, 40), (5, 50), (6, 60), (7, 70)]",
        "46 New, 46 New, 46 New, 46 New, 46 New, 46 New, 46 New, 50 Gone, 50 Gone, 50 Gone, 50 Gone",
        "10 slots, [(2, 20), (3, 30), (6, 60)]",
    ];
    check(&rt, rt.alloc(), grown_and_less(rt.alloc()), &shown)
}
