//! Tests. What is left of a run is compared as a text: what each worker answered, the stamps and the replies, and the
//! pairs.
ghost use Rattle.std.specs.Prelude.{◌+◌, ◌*◌, ◌≤◌};

use crate::gates::StoppingGates;
use crate::texts::run_text;
use body_terms::StepKind;
use std::alloc::{AllocError, Global};
use std::process::Abort;
use std::sync::Wait;
use std::thread::Threads;
use threaded_runs::runner_gate::{FreeGates, Pause};

/// Compares what is left of a run with this text.
fn check(
    rt: &impl Abort,
    found: Result<String, AllocError>,
    wanted: &str,
) -> Result<(), AllocError> {
    let found = found?;
    assert!(rt; found.as_str() == wanted, "{found}");
    Ok(())
}

/// Runs a text by one worker, on a table whose cells begin at this place.
fn alone_from<R: Threads + Wait + Sync>(
    rt: &R,
    alloc: Global,
    base: u32,
    text: &str,
) -> Result<String, AllocError>
    requires { base + 3 * 8 ≤ 12288 }
{
    run_text(rt, alloc, base, text, &[None], &mut FreeGates::new())?.shown(alloc)
}

const OF_EACH_KIND: &str =
    "flock 1/trace/get 5/del 5/ins 5 70/ins 5 80/get 5/ins 0 7/del 5/get 5/ins 7 90/";

const ANSWERED: &str = "[All] [Some((2, Absent)), Some((4, Absent)), Some((6, New)), \
    Some((8, Dup)), Some((10, Val(70))), Some((12, New)), Some((14, Gone)), Some((16, Absent)), \
    Some((18, New))] [(0, 7), (7, 90)]";

#[test]
fn requests_of_each_kind_are_answered_in_turn(rt: HostRuntime) -> Result<(), AllocError> {
    let low = alone_from(&rt, rt.alloc(), 0, OF_EACH_KIND);
    check(&rt, low, ANSWERED)?;
    let middle = alone_from(&rt, rt.alloc(), 7, OF_EACH_KIND);
    check(&rt, middle, ANSWERED)?;
    let high = alone_from(&rt, rt.alloc(), 12264, OF_EACH_KIND);
    check(&rt, high, ANSWERED)
}

#[test]
fn a_put_sets_its_key_whatever_stood_there(rt: HostRuntime) -> Result<(), AllocError> {
    let text = "flock 2/trace/put 5 70/put 5 80/get 5/del 5/put 5 90/";
    let told = "[All] [Some((2, New)), Some((4, Was(70))), Some((6, Val(80))), Some((8, Gone)), \
        Some((10, New))] [(5, 90)]";
    check(&rt, alone_from(&rt, rt.alloc(), 0, text), told)
}

/// The first worker adds a pair, and is stopped at its ask with this number. The second one enters once the first one
/// has published its section: it asks for the pair, and adds another one.
fn stop_at<R: Threads + Wait + Sync>(
    rt: &R,
    alloc: Global,
    ask: u64,
) -> Result<String, AllocError> {
    let mut pauses = Vec::new(alloc);
    pauses.push(Pause {
        runner: 1,
        at: StepKind::Entered,
        until_runner: 0,
        until: StepKind::Hold,
    })?;
    let mut gates = StoppingGates::new(alloc, pauses)?;
    let text = "flock 1/trace/ins 5 70/trace/get 5/ins 3 30/";
    run_text(rt, alloc, 0, text, &[Some(ask), None], &mut gates)?.shown(alloc)
}

#[test]
fn a_section_that_stops_anywhere_is_finished_by_a_helper(
    rt: HostRuntime,
) -> Result<(), AllocError> {
    let halted = "[Halted, All] [Some((2, New)), Some((4, Val(70))), Some((6, New))] \
        [(3, 30), (5, 70)]";
    for ask in 5..=31 {
        check(&rt, stop_at(&rt, rt.alloc(), ask), halted)?;
    }
    let whole = "[All, All] [Some((2, New)), Some((4, Val(70))), Some((6, New))] \
        [(3, 30), (5, 70)]";
    check(&rt, stop_at(&rt, rt.alloc(), 32), whole)
}

/// Two workers add one key, and ask for it behind that: without the stamps, which depend on who comes first.
fn contend<R: Threads + Wait + Sync>(rt: &R, alloc: Global) -> Result<String, AllocError> {
    let text = "flock 1/trace/ins 5 70/get 5/trace/ins 5 80/get 5/";
    let row = run_text(rt, alloc, 0, text, &[None, None], &mut FreeGates::new())?;
    row.shown_replies(alloc)
}

const FIRST: &str = "[All, All] [Some(New), Some(Val(70)), Some(Dup), Some(Val(70))] [(5, 70)]";

const SECOND: &str = "[All, All] [Some(Dup), Some(Val(80)), Some(New), Some(Val(80))] [(5, 80)]";

#[test]
fn two_threads_contend_and_one_of_them_adds_the_key(rt: HostRuntime) -> Result<(), AllocError> {
    for _ in 0..100 {
        let found = contend(&rt, rt.alloc())?;
        assert!(&rt;
            found.as_str() == FIRST || found.as_str() == SECOND,
            "{found}"
        );
    }
    Ok(())
}
