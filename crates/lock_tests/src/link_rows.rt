//! Rows of steps on the pure machine in which the log of a section goes on in a block: a removal from the search tree,
//! which agrees on nine words.
ghost use Rattle.std.specs.Prelude.{◌≡◌, ◌<◌};

use crate::attempt_scene::{added, asked, taken};
use crate::texts::check;
use interleave_core::{Event, EventKind, Machine};
use leaf_tree::LeafTree;
use machine_states::body_terms::{Place, Thunk, Word};
use machine_states::runner_parts::{Part, thunk_words};
use machine_states::table_words::{BLOCK_WORDS, DESCRIPTOR_WORDS, Layout, PART_WORDS, Spot};
use std::alloc::{AllocError, Global};
use std::process::Abort;

/// The first descriptor, behind 17 node slots, and the first block, behind six descriptors.
const DESCRIPTORS: u32 = 17;

const BLOCKS: u32 = 23;

/// The machine over a search tree, with two workers. Each has two descriptors, so 24 blocks.
#[derive(Drop)]
struct Played {
    state: Machine<LeafTree>,
    ghost two: { state.layout.runners ≡ 2 },
    ghost own: { state.layout.sections ≡ 2 },
}

/// It in its first state, with the requests of both workers.
fn begins(alloc: Global) -> Result<Played, AllocError> {
    let layout = Layout {
        runners: 2,
        nodes: 4,
        sections: 2,
        version_max: 4294967295,
    };
    let requests = [added(), taken(), asked()];
    let state = Machine::new(alloc, LeafTree::new(), layout, &requests)?;
    Ok(Played { state })
}

/// Makes this step, and says whether it was enabled.
fn goes(machine: &mut Played, runner: u32, kind: EventKind) -> bool {
    machine.state.step(Event { runner, kind }).is_ok()
}

/// Makes these steps, and says whether all were enabled.
fn all_go(machine: &mut Played, runner: u32, kinds: &[EventKind]) -> bool {
    for kind in kinds {
        if !goes(machine, runner, *kind) {
            return false;
        }
    }
    true
}

/// Enters, and loads the cells at these places.
fn reads(machine: &mut Played, runner: u32, places: &[Place]) -> bool {
    let enters = [
        EventKind::EnterLoad,
        EventKind::Announce,
        EventKind::EnterAgain,
    ];
    if !all_go(machine, runner, &enters) {
        return false;
    }
    for place in places {
        if !goes(machine, runner, EventKind::LoadCell(Some(*place))) {
            return false;
        }
    }
    true
}

/// The first worker enters, loads the cells at these places, and publishes a section with this thunk in this descriptor.
fn publishes(machine: &mut Played, places: &[Place], descriptor: u32, thunk: Thunk) -> bool {
    if !reads(machine, 0, places) {
        return false;
    }
    let words = thunk_words(&thunk);
    let slot = DESCRIPTORS.saturating_add(descriptor);
    for word in 0..DESCRIPTOR_WORDS as u32 {
        let number = words.get(word as usize).copied().unwrap_or(0);
        if !goes(machine, 0, EventKind::PrivateStore { slot, word, number }) {
            return false;
        }
    }
    let guards = EventKind::Guard(Some(descriptor));
    goes(machine, 0, guards) && goes(machine, 0, EventKind::Hold { thunk, descriptor })
}

/// Loads the thunk words and the done word.
fn opens(machine: &mut Played, runner: u32, descriptor: u32) -> bool {
    if !goes(machine, runner, EventKind::LoadThunk(Some(descriptor))) {
        return false;
    }
    for _ in 0..11u32 {
        if !goes(machine, runner, EventKind::LoadThunk(None)) {
            return false;
        }
    }
    goes(machine, runner, EventKind::LoadDone)
}

/// Makes the private steps of a Make that fills this slot with these values.
fn fills(machine: &mut Played, slot: u32, values: [u32; 5]) -> bool {
    for word in 0..5u32 {
        let number = Word::pack(values[word as usize], 2).bits();
        if !goes(machine, 0, EventKind::PrivateLoad { slot, word }) {
            return false;
        }
        if !goes(machine, 0, EventKind::PrivateStore { slot, word, number }) {
            return false;
        }
    }
    true
}

/// A word of a cell as a number.
fn cell(value: u32, version: u32) -> u64 {
    Word::pack(value, version).bits()
}

/// The section by which 5 is inserted: it makes the leaf in slot 3, and the inner node over it in slot 4.
fn insertion() -> Thunk {
    Thunk {
        form: 12,
        request: 0,
        lock: 0,
        word: Word::pack(0, 1),
        operands: [2, cell(2, 1), cell(0, 1), 5, 70, 4294967294, 0, 0],
    }
}

/// The section by which both are taken out.
fn removal() -> Thunk {
    Thunk {
        form: 13,
        request: 1,
        lock: 0,
        word: Word::pack(0, 3),
        operands: [
            2,
            cell(5, 2),
            cell(0, 1),
            cell(0, 2),
            22,
            cell(4, 2),
            cell(0, 2),
            0,
        ],
    }
}

/// The first worker inserts 5, and leaves.
fn inserts(machine: &mut Played) -> bool {
    let loads = [
        EventKind::LoadCell(None),
        EventKind::Commit,
        EventKind::LoadCell(None),
        EventKind::Commit,
    ];
    let ends = [
        EventKind::MakeCommit,
        EventKind::ClockLoad,
        EventKind::StampExchange,
        EventKind::ClockRaise,
        EventKind::ExchangeCell,
        EventKind::ReplyExchange,
        EventKind::SetDone,
        EventKind::Release,
    ];
    publishes(machine, &[2, 7, 6, 0, 4], 0, insertion())
        && opens(machine, 0, 0)
        && all_go(machine, 0, &loads)
        && fills(machine, 3, [0, 5, 0, 70, 0])
        && goes(machine, 0, EventKind::MakeCommit)
        && fills(machine, 4, [0, 4294967294, 4, 2, 0])
        && all_go(machine, 0, &ends)
        && leaves(machine, 0)
}

/// Then it publishes the removal in its other descriptor.
fn removes(machine: &mut Played) -> bool {
    let places = [2, 22, 21, 17, 16, 0, 4, 20, 24];
    inserts(machine) && publishes(machine, &places, 1, removal())
}

/// The second worker enters, reads the lock, guards the descriptor that it names, and reads it once more.
fn watches(machine: &mut Played) -> bool {
    let guards = EventKind::Guard(Some(1));
    reads(machine, 1, &[0])
        && goes(machine, 1, guards)
        && goes(machine, 1, EventKind::LoadCell(Some(0)))
}

/// The steps of the removal behind its opening, up to the commit that goes to the eighth word of its log.
fn up_to_the_link() -> [EventKind; 21] {
    [
        EventKind::LoadCell(None),
        EventKind::Commit,
        EventKind::LoadCell(None),
        EventKind::Commit,
        EventKind::NestedLoad,
        EventKind::Commit,
        EventKind::NestedHold,
        EventKind::OutcomeLoad,
        EventKind::OutcomeCommit,
        EventKind::LoadCell(None),
        EventKind::Commit,
        EventKind::LoadCell(None),
        EventKind::Commit,
        EventKind::LoadCell(None),
        EventKind::Commit,
        EventKind::ClockLoad,
        EventKind::StampExchange,
        EventKind::ClockRaise,
        EventKind::ExchangeCell,
        EventKind::ExchangeCell,
        EventKind::EpochForRetire,
    ]
}

/// Those behind the link, to its end.
fn behind_the_link() -> [EventKind; 7] {
    [
        EventKind::RetireCommit,
        EventKind::EpochForRetire,
        EventKind::RetireCommit,
        EventKind::ReplyExchange,
        EventKind::SetDone,
        EventKind::Release,
        EventKind::Release,
    ]
}

/// Opens the removal, and runs it up to the link.
fn comes_to_the_link(machine: &mut Played, runner: u32) -> bool {
    opens(machine, runner, 1) && all_go(machine, runner, &up_to_the_link())
}

/// Runs it to its end from behind the link.
fn ends(machine: &mut Played, runner: u32) -> bool {
    all_go(machine, runner, &behind_the_link())
}

/// Makes the words of an own block 0, and its link.
fn empties(machine: &mut Played, runner: u32, block: u32) -> bool {
    let slot = BLOCKS.saturating_add(block);
    for word in 0..BLOCK_WORDS as u32 {
        let kind = EventKind::PrivateStore {
            slot,
            word,
            number: 0,
        };
        if !goes(machine, runner, kind) {
            return false;
        }
    }
    true
}

/// Clears the guard, and leaves.
fn leaves(machine: &mut Played, runner: u32) -> bool {
    all_go(machine, runner, &[EventKind::Guard(None), EventKind::Idle])
}

/// Reads all guard words.
fn sweeps(machine: &mut Played, runner: u32) -> bool {
    let loads = [
        EventKind::LoadGuard(0),
        EventKind::LoadGuard(1),
        EventKind::LoadGuard(2),
    ];
    all_go(machine, runner, &loads)
}

/// What a worker is at and keeps.
fn part_of(machine: &Played, runner: u32) -> &Part {
    if runner == 0 {
        machine.state.part(0)
    } else {
        machine.state.part(1)
    }
}

/// How many blocks of the worker are free, and those in its limbo.
fn blocks(alloc: Global, machine: &Played, runner: u32) -> Result<String, AllocError> {
    let blocks = &part_of(machine, runner).blocks;
    let (free, limbo) = (blocks.free.len(), &blocks.limbo);
    format!(in alloc; "{free:?} {limbo:?}")
}

/// The trail of the worker's latest run, and whether it was late.
fn ended(alloc: Global, machine: &Played, runner: u32) -> Result<String, AllocError> {
    match part_of(machine, runner).records.finished.last() {
        None => Ok(String::new(alloc)),
        Some(last) => {
            let (trail, late) = (&last.trail, if last.late { ", late" } else { "" });
            format!(in alloc; "{trail:?}{late}")
        }
    }
}

/// Both workers' latest runs, and their blocks, each on a line.
fn shown(alloc: Global, machine: &Played) -> Result<String, AllocError> {
    let (first, second) = (ended(alloc, machine, 0)?, ended(alloc, machine, 1)?);
    let (own, other) = (blocks(alloc, machine, 0)?, blocks(alloc, machine, 1)?);
    format!(in alloc; "{first}\n{second}\n{own}\n{other}")
}

/// The words of the removal's descriptor in which its log begins: a part of it, and the link.
fn own_log(alloc: Global, machine: &Played) -> Result<String, AllocError> {
    let mut words = Vec::new(alloc);
    for word in 0..PART_WORDS as u32 {
        words.push(machine.state.word(Spot::LogWord(1, word)))?;
    }
    words.push(machine.state.word(Spot::LinkWord(1)))?;
    format!(in alloc; "{words:?}")
}

/// Those of a block.
fn block_log(alloc: Global, machine: &Played, block: u32) -> Result<String, AllocError>
    requires { block < 64 }
{
    let mut words = Vec::new(alloc);
    for word in 0..PART_WORDS as u32 {
        words.push(machine.state.word(Spot::BlockWord(block, word)))?;
    }
    words.push(machine.state.word(Spot::BlockLink(block)))?;
    format!(in alloc; "{words:?}")
}

/// The log of the removal, and the words of each worker's first block, each on a line.
fn logs(alloc: Global, machine: &Played) -> Result<String, AllocError> {
    let log = own_log(alloc, machine)?;
    let (first, second) = (
        block_log(alloc, machine, 0)?,
        block_log(alloc, machine, 24)?,
    );
    format!(in alloc; "{log}\n{first}\n{second}")
}

/// The trail of the removal: the words (5, 2), which are value and version, (0, 1), (0, 2), (2, 3), (4, 2), (2, 2) and
/// (0, 2), and then the two slots.
const TRAIL: &str = "[8589934597, 4294967296, 8589934592, 12884901890, 8589934596, 8589934594, \
    8589934592, 5, 4]";

/// Its first seven words, which the descriptor has.
const OWN: &str =
    "[8589934597, 4294967296, 8589934592, 12884901890, 8589934596, 8589934594, 8589934592";

/// The words of a block that has the other two, and those of one that has none.
const MORE: &str = "[5, 4, 0, 0, 0, 0, 0, 0]";

const NONE: &str = "[0, 0, 0, 0, 0, 0, 0, 0]";

/// Compares the log, and the words of each worker's first block, with these lines; the link is the number of the block
/// plus one.
fn check_logs(
    rt: &impl Abort,
    alloc: Global,
    machine: &Played,
    link: u32,
    first: &str,
    second: &str,
) -> Result<(), AllocError> {
    let log = format!(in alloc; "{OWN}, {link}]")?;
    let row = logs(alloc, machine);
    check(rt, alloc, row, &[log.as_str(), first, second])
}

#[test]
fn a_removal_goes_on_in_a_block(rt: HostRuntime) -> Result<(), AllocError> {
    let mut machine = begins(rt.alloc())?;
    assert!(&rt; removes(&mut machine) && comes_to_the_link(&mut machine, 0));
    // It can't commit before it has linked a block, nor link one whose words it hasn't made 0.
    assert!(&rt; !goes(&mut machine, 0, EventKind::RetireCommit));
    assert!(&rt; !goes(&mut machine, 0, EventKind::LinkCommit(0)));
    let one = EventKind::PrivateStore {
        slot: BLOCKS,
        word: 0,
        number: 1,
    };
    assert!(&rt; !goes(&mut machine, 0, one));
    assert!(&rt; empties(&mut machine, 0, 0));
    assert!(&rt; !goes(&mut machine, 0, EventKind::LinkCommit(1)));
    assert!(&rt; goes(&mut machine, 0, EventKind::LinkCommit(0)) && ends(&mut machine, 0));
    let row = shown(rt.alloc(), &machine);
    let kept = "23 [Waiting { block: 0, descriptor: 1 }]";
    check(&rt, rt.alloc(), row, &[TRAIL, "", kept, "24 []"])?;
    check_logs(&rt, rt.alloc(), &machine, 1, MORE, NONE)?;
    assert!(&rt; leaves(&mut machine, 0) && sweeps(&mut machine, 0));
    let row = shown(rt.alloc(), &machine);
    check(&rt, rt.alloc(), row, &[TRAIL, "", "24 []", "24 []"])
}

#[test]
fn a_late_helpers_block_is_free_again(rt: HostRuntime) -> Result<(), AllocError> {
    let mut machine = begins(rt.alloc())?;
    assert!(&rt; removes(&mut machine) && watches(&mut machine));
    assert!(&rt; comes_to_the_link(&mut machine, 0) && empties(&mut machine, 0, 0));
    assert!(&rt; goes(&mut machine, 0, EventKind::LinkCommit(0)) && ends(&mut machine, 0));
    // The helper's guard keeps the block from its owner.
    assert!(&rt; leaves(&mut machine, 0) && sweeps(&mut machine, 0));
    assert!(&rt; comes_to_the_link(&mut machine, 1) && empties(&mut machine, 1, 24));
    assert!(&rt; goes(&mut machine, 1, EventKind::LinkCommit(24)) && ends(&mut machine, 1));
    let row = shown(rt.alloc(), &machine);
    let late = format!(in rt.alloc(); "{TRAIL}, late")?;
    let kept = "23 [Waiting { block: 0, descriptor: 1 }]";
    check(&rt, rt.alloc(), row, &[TRAIL, late.as_str(), kept, "24 []"])?;
    check_logs(&rt, rt.alloc(), &machine, 1, MORE, NONE)?;
    assert!(&rt; leaves(&mut machine, 1) && sweeps(&mut machine, 0));
    let row = shown(rt.alloc(), &machine);
    check(
        &rt,
        rt.alloc(),
        row,
        &[TRAIL, late.as_str(), "24 []", "24 []"],
    )
}

#[test]
fn of_two_that_link_a_block_one_wins(rt: HostRuntime) -> Result<(), AllocError> {
    let mut machine = begins(rt.alloc())?;
    assert!(&rt; removes(&mut machine) && watches(&mut machine));
    assert!(&rt; comes_to_the_link(&mut machine, 0) && empties(&mut machine, 0, 0));
    assert!(&rt; comes_to_the_link(&mut machine, 1) && empties(&mut machine, 1, 24));
    assert!(&rt; goes(&mut machine, 1, EventKind::LinkCommit(24)));
    assert!(&rt; goes(&mut machine, 0, EventKind::LinkCommit(0)));
    assert!(&rt; ends(&mut machine, 0) && ends(&mut machine, 1));
    let row = shown(rt.alloc(), &machine);
    let won = "23 [Waiting { block: 24, descriptor: 1 }]";
    check(&rt, rt.alloc(), row, &[TRAIL, TRAIL, "24 []", won])?;
    check_logs(&rt, rt.alloc(), &machine, 25, NONE, MORE)?;
    assert!(&rt; leaves(&mut machine, 0) && leaves(&mut machine, 1) && sweeps(&mut machine, 1));
    let row = shown(rt.alloc(), &machine);
    check(&rt, rt.alloc(), row, &[TRAIL, TRAIL, "24 []", "24 []"])
}

/// How many steps a run of the removal makes: with the link of a block, 50.
const STEPS: u32 = 50;

/// How many turns a schedule has at most: one of a worker that is through is no step.
const TURNS: u32 = 1000;

/// The step with this number of a worker's run of the removal.
fn step_at(runner: u32, step: u32) -> EventKind {
    let block = runner.saturating_mul(24);
    match step {
        0 => EventKind::LoadThunk(Some(1)),
        1..12 => EventKind::LoadThunk(None),
        12 => EventKind::LoadDone,
        13..34 => {
            let steps = up_to_the_link();
            let at = step.saturating_sub(13) as usize;
            steps.get(at).copied().unwrap_or(EventKind::Idle)
        }
        34..42 => EventKind::PrivateStore {
            slot: BLOCKS.saturating_add(block),
            word: step.saturating_sub(34),
            number: 0,
        },
        42 => EventKind::LinkCommit(block),
        _ => {
            let steps = behind_the_link();
            let at = step.saturating_sub(43) as usize;
            steps.get(at).copied().unwrap_or(EventKind::Idle)
        }
    }
}

/// Both workers run the removal to its end, in an order that this seed gives. Whether each step was enabled.
fn in_some_order(machine: &mut Played, seed: u64) -> bool {
    let (mut first, mut second) = (0u32, 0u32);
    let mut state = seed;
    for _ in 0..TURNS {
        if first == STEPS && second == STEPS {
            return true;
        }
        state = state
            .wrapping_mul(6364136223846793005)
            .wrapping_add(1442695040888963407);
        if (state >> 33) % 2 == 0 {
            if first < STEPS {
                if !goes(machine, 0, step_at(0, first)) {
                    return false;
                }
                first = first.saturating_add(1);
            }
        } else if second < STEPS {
            if !goes(machine, 1, step_at(1, second)) {
                return false;
            }
            second = second.saturating_add(1);
        }
    }
    false
}

/// How many blocks of both workers are free, and how many in limbo.
fn all_blocks(machine: &Played) -> (usize, usize) {
    let (first, second) = (&part_of(machine, 0).blocks, &part_of(machine, 1).blocks);
    (
        first.free.len().saturating_add(second.free.len()),
        first.limbo.len().saturating_add(second.limbo.len()),
    )
}

#[test]
fn in_any_order_both_have_one_log_and_one_block_is_linked(
    rt: HostRuntime,
) -> Result<(), AllocError> {
    for seed in 0..20u64 {
        let mut machine = begins(rt.alloc())?;
        assert!(&rt; removes(&mut machine) && watches(&mut machine));
        assert!(&rt; in_some_order(&mut machine, seed));
        let own = ended(rt.alloc(), &machine, 0)?;
        let other = ended(rt.alloc(), &machine, 1)?;
        assert!(&rt;
            own.starts_with(TRAIL) && other.starts_with(TRAIL),
            "{own} {other}"
        );
        let (free, limbo) = all_blocks(&machine);
        assert!(&rt; free == 47 && limbo == 1);
        assert!(&rt; leaves(&mut machine, 0) && leaves(&mut machine, 1));
        assert!(&rt; sweeps(&mut machine, 0) && sweeps(&mut machine, 1));
        let (free, limbo) = all_blocks(&machine);
        assert!(&rt; free == 48 && limbo == 0);
    }
    Ok(())
}
