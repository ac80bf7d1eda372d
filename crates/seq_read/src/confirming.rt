//! What confirms that the cells held at one time what was loaded, and the two words that the read writes then.
ghost use Rattle.std.specs.Prelude.{◌≡◌, ℕ, Some};
ghost use Rattle.machine_states.specs.map_history.specs.declared.op.Request.{Request};
ghost use Rattle.machine_states.specs.structure_laws.specs.Scene.{Readings};
ghost use Rattle.machine_states.specs.runner_parts.specs.declared.event.EventKind.TheVariants as kinds;
ghost use Rattle.machine_states.specs.runner_steps.specs.Reads.{read_stamp_after};
ghost use Rattle.machine_states.specs.runner_steps.specs.Sections.{reply_in};
ghost use Rattle.caller_facts.specs.version_words.specs.RunnerState.{RunnerState};
ghost use Rattle.caller_facts.specs.version_words.specs.TableState.{IsOf};
ghost use Rattle.caller_facts.specs.version_words.specs.Events.{Makes, IsMade};
ghost use Rattle.caller_facts.specs.section_runs.specs.commit_log.specs.Asked.{IsAsked};
ghost use Rattle.caller_facts.specs.try_lock.specs.Planning.{Planning};
ghost use Rattle.seq_read.specs.Course.{HasFound, HasAnnounced, HasClock, HasLock, HasReplied};

use caller_facts::lock_walks::version_words::{FlockTable, Runner};
use caller_facts::runner_gate::Gate;
use caller_facts::try_lock::commit_log::passes;
use machine_states::body_terms::{StepKind, Steps, Thunk, Word};
use machine_states::structure_laws::Structure;
use next_steps::looks_are_small;

/// Announces the read with its thunk, and asks the gate behind that.
#[inline(always)]
pub fn announce<S: Structure, G: Gate, L>(
    table: &FlockTable<S>,
    runner: Runner<S>,
    thunk: &Thunk,
    gate: &mut G,
    steps: &mut Steps<L>,
) -> (Runner<S>, bool)
    requires own { IsOf table.now runner }
    requires found { (planning : Planning) × (request : Request) × (found : Readings) × (old : RunnerState S)
        × HasFound (S.meaning table.now.structure) planning request thunk.now found old runner }
    ensures own { IsOf table.now result.0 }
    ensures event { IsMade (S.meaning table.now.structure) (kinds.ReadPlan thunk.now) runner result.0 }
    ensures asked { IsAsked 1 result.1
        (G.halts gate.old) (G.halts gate.new) (G.asks gate.old) (G.asks gate.new) steps.old.count steps.new.count }
{
    let runner = table.read_plan(runner, thunk);
    let going = passes(gate, steps, StepKind::ClockLoad);
    (runner, going)
}

/// Loads the clock for the read that was announced, and asks the gate behind that.
#[inline(always)]
pub fn load_clock<S: Structure, G: Gate, L>(
    table: &FlockTable<S>,
    runner: Runner<S>,
    thunk: &Thunk,
    gate: &mut G,
    steps: &mut Steps<L>,
) -> (Runner<S>, u64, bool)
    requires own { IsOf table.now runner }
    requires announced { (planning : Planning) × (request : Request) × (found : Readings) × (old : RunnerState S)
        × HasAnnounced (S.meaning table.now.structure) planning request thunk.now found old runner }
    ensures own { IsOf table.now result.0 }
    ensures event { Makes (S.meaning table.now.structure) kinds.ReadClock result.1 runner result.0 }
    ensures asked { IsAsked 1 result.2
        (G.halts gate.old) (G.halts gate.new) (G.asks gate.old) (G.asks gate.new) steps.old.count steps.new.count }
{
    let _ = thunk;
    let (runner, clock) = table.read_clock(runner);
    let going = passes(gate, steps, StepKind::ClockLoad);
    (runner, clock, going)
}

/// Loads the thunk's lock once more, and asks the gate behind that.
#[inline(always)]
pub fn load_lock<S: Structure, G: Gate, L>(
    table: &FlockTable<S>,
    runner: Runner<S>,
    thunk: &Thunk,
    gate: &mut G,
    steps: &mut Steps<L>,
) -> (Runner<S>, Word, bool)
    requires own { IsOf table.now runner }
    requires clock { (planning : Planning) × (request : Request) × (found : Readings) × (clock : ℕ)
        × (old : RunnerState S)
        × HasClock (S.meaning table.now.structure) planning request thunk.now found clock old runner }
    ensures own { IsOf table.now result.0 }
    ensures event { Makes (S.meaning table.now.structure) (kinds.LoadCell (Some thunk.now.lock)) result.1 runner
        result.0 }
    ensures asked { IsAsked 1 result.2
        (G.halts gate.old) (G.halts gate.new) (G.asks gate.old) (G.asks gate.new) steps.old.count steps.new.count }
{
    let (runner, word) = table.load_cell(runner, thunk.lock);
    let going = passes(gate, steps, StepKind::Walk);
    (runner, word, going)
}

/// Writes the reply of the read, whose lock had its word again, and asks the gate behind that. Answers the reply's
/// word.
#[inline(always)]
pub fn write_reply<S: Structure, G: Gate, L>(
    table: &FlockTable<S>,
    runner: Runner<S>,
    thunk: &Thunk,
    reply: u64,
    gate: &mut G,
    steps: &mut Steps<L>,
) -> (Runner<S>, u64, bool)
    requires own { IsOf table.now runner }
    requires unmoved { (planning : Planning) × (request : Request) × (found : Readings) × (clock : ℕ)
        × (old : RunnerState S)
        × HasLock (S.meaning table.now.structure) planning request thunk.now found clock thunk.now.word old runner }
    requires reply { reply ≡ reply_in ((S.meaning table.now.structure).body thunk.now) }
    ensures own { IsOf table.now result.0 }
    ensures word { result.1 ≡ reply }
    ensures event { Makes (S.meaning table.now.structure) kinds.ReadReply 0 runner result.0 }
    ensures asked { IsAsked 1 result.2
        (G.halts gate.old) (G.halts gate.new) (G.asks gate.old) (G.asks gate.new) steps.old.count steps.new.count }
{
    looks_are_small(table.structure());
    let (runner, word) = table.read_reply(runner, thunk.request, reply);
    let going = passes(gate, steps, StepKind::ReplyExchange);
    (runner, word, going)
}

/// Writes the read's stamp behind its reply, by the clock that was loaded, and asks the gate behind that. Answers the
/// stamp.
#[inline(always)]
pub fn write_stamp<S: Structure, G: Gate, L>(
    table: &FlockTable<S>,
    runner: Runner<S>,
    thunk: &Thunk,
    clock: u64,
    gate: &mut G,
    steps: &mut Steps<L>,
) -> (Runner<S>, u64, bool)
    requires own { IsOf table.now runner }
    requires replied { (planning : Planning) × (request : Request) × (found : Readings) × (old : RunnerState S)
        × HasReplied (S.meaning table.now.structure) planning request thunk.now found clock old runner }
    ensures own { IsOf table.now result.0 }
    ensures stamp { result.1 ≡ read_stamp_after clock }
    ensures event { Makes (S.meaning table.now.structure) kinds.ReadStamp 0 runner result.0 }
    ensures asked { IsAsked 1 result.2
        (G.halts gate.old) (G.halts gate.new) (G.asks gate.old) (G.asks gate.new) steps.old.count steps.new.count }
{
    looks_are_small(table.structure());
    let (runner, stamp) = table.read_stamp(runner, thunk.request, 2 * clock + 1);
    let going = passes(gate, steps, StepKind::StampExchange);
    (runner, stamp, going)
}
