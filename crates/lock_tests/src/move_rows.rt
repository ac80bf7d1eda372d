//! Tests on the table that moves keys.
ghost use Rattle.std.specs.Prelude.{◌≤◌};

use crate::lone_scene::serve_lines;
use crate::texts::check;
use key_move::MoveTable;
use std::alloc::{AllocError, Global};

/// The requests of these lines, shown as a text, on a new table of `2^bits` buckets by one worker with 18 node slots.
fn served(alloc: Global, bits: u32, lines: &str) -> Result<String, AllocError>
    requires { bits ≤ 12 }
{
    serve_lines(alloc, MoveTable::new(bits), 18, lines)?.shown(alloc)
}

/// The value of 1 moves to 2; and then nothing moves where 1 is absent, or 3 is there, or both are one key.
const MOVED_ONCE: &str = "ins 1 10\nmov 1 2\nget 1\nget 2\nmov 1 2\nins 3 30\nmov 2 3\nmov 2 2\n";

#[test]
fn a_value_moves_between_64_buckets(rt: HostRuntime) -> Result<(), AllocError> {
    let told = "36 New, 59 Moved, 21 Absent, 21 Val(10), 29 Absent, 36 New, 29 Dup, 21 Dup";
    let row = served(rt.alloc(), 6, MOVED_ONCE);
    check(
        &rt,
        rt.alloc(),
        row,
        &[told, "16 slots, [(2, 10), (3, 30)]"],
    )
}

#[test]
fn a_value_moves_within_one_bucket(rt: HostRuntime) -> Result<(), AllocError> {
    let told = "36 New, 38 Moved, 21 Absent, 21 Val(10), 21 Absent, 36 New, 21 Dup, 21 Dup";
    let row = served(rt.alloc(), 0, MOVED_ONCE);
    check(
        &rt,
        rt.alloc(),
        row,
        &[told, "16 slots, [(2, 10), (3, 30)]"],
    )
}

/// Fifty rounds of an insertion, a `mov` and a removal, of which those that are as they should be are left out.
fn fifty_rounds(alloc: Global) -> Result<String, AllocError> {
    let lines = "ins 1 10\nmov 1 2\ndel 2\n".repeat(alloc, 50)?;
    let told = "36 New, 59 Moved, 27 Gone, ".repeat(alloc, 49)?;
    served(alloc, 6, &lines)?.replace(alloc, told.as_str(), "")
}

#[test]
fn slots_are_used_again(rt: HostRuntime) -> Result<(), AllocError> {
    let row = fifty_rounds(rt.alloc());
    check(
        &rt,
        rt.alloc(),
        row,
        &["36 New, 59 Moved, 27 Gone", "18 slots, []"],
    )
}
