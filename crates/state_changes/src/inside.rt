//! What an event of a run makes of the part.
ghost use Rattle.std.specs.Prelude.{◌≡◌, ◌≤◌, ◌<◌, ◌^◌, length, OnOk, IfOk};
ghost use Rattle.runner_steps.specs.table_words.specs.Limits.{IsWithinLimits};
ghost use Rattle.runner_steps.specs.Sections.{settles, outcome_of, next_of};
ghost use Rattle.runner_steps.specs.AfterInRun.{goes_on, agrees, opened_more, cell_loaded, cell_exchanged, number_loaded, word_committed, fill_loaded, make_committed, retire_committed, stamp_agreed, clock_raised, reply_agreed, done_set, finished_of, run_over, released_more, lock_released, place_of, retired_slot_of, reply_word_of, ended_more};
ghost use Rattle.runner_steps.specs.After.{line_after, inside_after};
ghost use Rattle.runner_steps.specs.runner_parts.specs.State.{PartState};

use runner_asks::{is_end, leaves, reply_in, settled, thunk_of};
use runner_steps::body_terms::{Micro, Outcome, Place, Word, micro_at};
use runner_steps::runner_parts::structure_laws::Structure;
use runner_steps::runner_parts::{EventKind, Finished, Part, Run};
use runner_steps::table_words::Layout;
use std::alloc::{AllocError, Global};

/// The run behind the checks that pass.
fn settle<S: Structure>(run: &mut Run, structure: &S, layout: Layout)
    requires opened { 12 ≤ length run.old.opened }
    requires limits { IsWithinLimits layout }
    ensures { run.new ≡ settles (S.meaning structure.now) layout run.old }
{
    let body = structure.body(&thunk_of(&run.opened));
    run.at = settled(&body, layout, run.descriptor, &run.trail, run.at);
}

/// The next place of the line, with this number to go by.
pub fn goes_on<S: Structure>(run: &mut Run, structure: &S, layout: Layout, word: u64)
    requires opened { 12 ≤ length run.old.opened }
    requires limits { IsWithinLimits layout }
    requires at { run.old.at < 440 }
    ensures { run.new ≡ goes_on (S.meaning structure.now) layout run.old word }
{
    run.at += 1;
    run.word = word;
    settle(run, structure, layout);
}

/// One more agreed word.
pub fn agrees<S: Structure>(
    run: &mut Run,
    structure: &S,
    layout: Layout,
    agreed: u64,
) -> Result<(), AllocError>
    requires opened { 12 ≤ length run.old.opened }
    requires limits { IsWithinLimits layout }
    requires at { run.old.at < 440 }
    ensures { OnOk result (run.new ≡ agrees (S.meaning structure.now) layout run.old agreed) }
{
    run.trail.push(agreed)?;
    run.at += 1;
    settle(run, structure, layout);
    Ok(())
}

/// The cell that a step of a run meets.
pub fn place_of(micro: &Micro) -> Place
    ensures { result ≡ place_of micro.now }
{
    match micro {
        Micro::LoadCell { place, .. }
        | Micro::NestedLoad { place, .. }
        | Micro::NestedHold { place, .. }
        | Micro::OutcomeLoad { place, .. }
        | Micro::ExchangeCell { place, .. }
        | Micro::Release { place, .. } => *place,
        _ => 0,
    }
}

pub fn retired_slot_of(micro: &Micro) -> u32
    ensures { result ≡ retired_slot_of micro.now }
{
    match micro {
        Micro::RetireCommit { slot, log: _ } => *slot,
        _ => 0,
    }
}

pub fn reply_word_of(micro: &Micro) -> u64
    ensures { result ≡ reply_word_of micro.now }
{
    match micro {
        Micro::ReplyExchange { reply } => *reply,
        _ => 0,
    }
}

/// How a run ends that rests here: it leaves at a check, or it went through.
fn outcome_of<S: Structure>(run: &Run, structure: &S, layout: Layout) -> Outcome
    requires opened { 12 ≤ length run.now.opened }
    requires limits { IsWithinLimits layout }
    ensures { result ≡ outcome_of (S.meaning structure.now) layout run.now }
{
    let body = structure.body(&thunk_of(&run.opened));
    match leaves(layout, run.descriptor, &run.trail, micro_at(&body, run.at)) {
        None => Outcome::Answered(reply_in(&body)),
        Some(outcome) => outcome,
    }
}

/// What is kept of a run at its end.
pub fn finished_of<S: Structure>(
    run: &Run,
    alloc: Global,
    structure: &S,
    layout: Layout,
) -> Result<Finished, AllocError>
    requires opened { length run.now.opened ≡ 13 }
    requires limits { IsWithinLimits layout }
    ensures { IfOk result (λ x. x ≡ finished_of (S.meaning structure.now) layout run.now) }
{
    let thunk = thunk_of(&run.opened);
    Ok(Finished {
        descriptor: run.descriptor,
        lock: thunk.lock,
        word: thunk.word,
        outcome: outcome_of(run, structure, layout),
        trail: Vec::from_slice(alloc, &run.trail)?,
        late: run.opened[12] != 0,
    })
}
