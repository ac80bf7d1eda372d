//! The link of a block, before a commit into a part of the log that isn't linked yet.
ghost use Rattle.std.specs.Prelude.{◌≡◌, true, false, Some};
ghost use Rattle.machine_states.specs.table_words.specs.Places.{block_words};
ghost use Rattle.machine_states.specs.runner_parts.specs.State.{RunState};
ghost use Rattle.next_steps.specs.Steps.{next_block};
ghost use Rattle.version_words.specs.TableState.{IsOf};
ghost use Rattle.commit_log.specs.Runs.{IsRunning};
ghost use Rattle.commit_log.specs.Halted.{IsThrough, IsHalted};
ghost use Rattle.commit_log.specs.Links.{is_due, link_cost, links_cost, MayLink, IsEmptying, HasLinked};

use crate::between::passes;
use machine_states::body_terms::{StepKind, Steps};
use machine_states::structure_laws::Structure;
use machine_states::table_words::BLOCK_WORDS;
use runner_gate::Gate;
use version_words::{FlockTable, Runner};

/// Makes the words of this block 0 that aren't yet, one after the other. Each step is counted, and the gate is asked
/// after it: whether it let the runner go on.
fn empty_gated<S: Structure, G: Gate, L>(
    table: &FlockTable<S>,
    runner: Runner<S>,
    block: u32,
    gate: &mut G,
    steps: &mut Steps<L>,
) -> (Runner<S>, bool)
    requires own { IsOf table.now runner }
    requires next { (q : RunState) × MayLink (S.meaning table.now.structure) runner q × (is_due q ≡ true)
        × (next_block runner.part q ≡ Some block) }
    ensures own { IsOf table.now result.0 }
    ensures emptied { result.1 ≡ true → (q : RunState) → IsRunning (S.meaning table.now.structure) runner q
        → (q' : RunState) × IsEmptying (S.meaning table.now.structure) block block_words runner result.0 q q' }
    ensures through { result.1 ≡ true → IsThrough (S.meaning table.now.structure) block_words runner result.0
        (G.halts gate.old) (G.halts gate.new) (G.asks gate.old) (G.asks gate.new) steps.old.count steps.new.count }
    ensures halted { result.1 ≡ false → IsHalted (S.meaning table.now.structure) block_words runner result.0
        (G.halts gate.old) (G.halts gate.new) (G.asks gate.old) (G.asks gate.new) steps.old.count steps.new.count }
{
    let mut runner = runner;
    let first = runner.emptied();
    for word in first..BLOCK_WORDS as u32 {
        runner = table.empty_word(runner, block, word);
        if !passes(gate, steps, StepKind::Private) {
            return (runner, false);
        }
    }
    (runner, true)
}

/// Empties the block that is in the run's hand, or else the last of the own free ones, and puts it into the link behind
/// the section's last part that the run knows: where no other run of the section has linked one there. So the run knows
/// one part more, that of the own block or of the other one.
///
/// Most runs never come here: their words have room in the descriptor.
#[inline(never)]
fn link<S: Structure, G: Gate, L>(
    table: &FlockTable<S>,
    runner: Runner<S>,
    gate: &mut G,
    steps: &mut Steps<L>,
) -> (Runner<S>, bool)
    requires own { IsOf table.now runner }
    requires next { (q : RunState) × MayLink (S.meaning table.now.structure) runner q × (is_due q ≡ true) }
    ensures own { IsOf table.now result.0 }
    ensures linked { result.1 ≡ true → (q : RunState) → IsRunning (S.meaning table.now.structure) runner q
        → (q' : RunState) × HasLinked (S.meaning table.now.structure) runner result.0 q q' }
    ensures through { result.1 ≡ true → IsThrough (S.meaning table.now.structure) link_cost runner result.0
        (G.halts gate.old) (G.halts gate.new) (G.asks gate.old) (G.asks gate.new) steps.old.count steps.new.count }
    ensures halted { result.1 ≡ false → IsHalted (S.meaning table.now.structure) link_cost runner result.0
        (G.halts gate.old) (G.halts gate.new) (G.asks gate.old) (G.asks gate.new) steps.old.count steps.new.count }
{
    let Some(block) = runner.next_block() else {
        unreachable!()
    };
    let (runner, emptied) = empty_gated(table, runner, block, gate, steps);
    if !emptied {
        return (runner, false);
    }
    let (runner, _, _) = table.link_commit(runner, block);
    let going = passes(gate, steps, StepKind::LinkCommit);
    (runner, going)
}

/// Links a block, where the run is to commit a word into a part of its log that isn't linked yet: it makes the words of
/// an own block 0, and one exchange puts the block into the link behind the last part, where no other run of the
/// section has linked one yet. Each step is counted, and the gate is asked after it: whether it let the runner go on.
///
/// The runner has to be in a run whose next step is a commit, and to have a block where one is to be linked. No memory
/// is taken, and nothing waits.
#[inline(always)]
pub fn link_if_due<S: Structure, G: Gate, L>(
    table: &FlockTable<S>,
    runner: Runner<S>,
    gate: &mut G,
    steps: &mut Steps<L>,
) -> (Runner<S>, bool)
    requires own { IsOf table.now runner }
    requires next { (q : RunState) × MayLink (S.meaning table.now.structure) runner q }
    ensures own { IsOf table.now result.0 }
    ensures linked { result.1 ≡ true → (q : RunState) → IsRunning (S.meaning table.now.structure) runner q
        → (q' : RunState) × HasLinked (S.meaning table.now.structure) runner result.0 q q' }
    ensures through { result.1 ≡ true → (q : RunState) → IsRunning (S.meaning table.now.structure) runner q
        → IsThrough (S.meaning table.now.structure) (links_cost 1 q) runner result.0
        (G.halts gate.old) (G.halts gate.new) (G.asks gate.old) (G.asks gate.new) steps.old.count steps.new.count }
    ensures halted { result.1 ≡ false → (q : RunState) → IsRunning (S.meaning table.now.structure) runner q
        → IsHalted (S.meaning table.now.structure) (links_cost 1 q) runner result.0
        (G.halts gate.old) (G.halts gate.new) (G.asks gate.old) (G.asks gate.new) steps.old.count steps.new.count }
{
    if runner.is_link_due() {
        link(table, runner, gate, steps)
    } else {
        (runner, true)
    }
}
