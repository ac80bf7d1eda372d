//! One read of a request without a lock.
ghost use Rattle.std.specs.Prelude.{◌≡◌, ◌≤◌, length, position, not};
ghost use Rattle.machine_states.specs.body_terms.specs.Shape.{is_look};
ghost use Rattle.machine_states.specs.structure_laws.specs.Scene.{Readings};
ghost use Rattle.machine_states.specs.runner_steps.specs.Sections.{reply_in};
ghost use Rattle.caller_facts.specs.version_words.specs.RunnerState.{RunnerState};
ghost use Rattle.caller_facts.specs.version_words.specs.TableState.{IsOf};
ghost use Rattle.caller_facts.specs.try_lock.specs.declared.planned.Planned.TheVariants as plans;
ghost use Rattle.caller_facts.specs.Counted.{IsSeen};
ghost use Rattle.caller_facts.specs.Asking.{MayAttempt};
ghost use Rattle.seq_read.specs.Course.{read_of, HasPlanned, HasFound, HasLock, loaded_steps, locked_steps};
ghost use Rattle.seq_read.specs.Reads.{Reads};
ghost use Rattle.seq_read.specs.View.{steps_in};
ghost use Rattle.seq_read.specs.Parts.{Rests};

use crate::answers::{Looked, Read, as_read};
use crate::bodies::{first_change, reply_of};
use crate::cells::load_cells;
use crate::confirming::{announce, load_clock, load_lock, write_reply, write_stamp};
use crate::refusals::{lock_moved, plan_refused};
use crate::view::BodyView;
use caller_facts::goes_on;
use caller_facts::lock_walks::Planner;
use caller_facts::lock_walks::epoch_slots::{enter, exit};
use caller_facts::lock_walks::version_words::{FlockTable, RunRoom, Runner};
use caller_facts::runner_gate::Gate;
use caller_facts::try_lock::Planned;
use caller_facts::try_lock::commit_log::{Unasked, tell};
use machine_states::body_terms::{Body, StepKind, Steps, Thunk};
use machine_states::map_history::{Op, Reply, Request};
use next_steps::looks_are_small;

/// Writes both words of the request, whose lock had its word again behind the load of the clock, and leaves.
#[inline(always)]
fn answer<S: Planner, G: Gate, L>(
    table: &FlockTable<S>,
    runner: Runner<S>,
    request: &Request,
    thunk: &Thunk,
    clock: u64,
    reply: u64,
    gate: &mut G,
    steps: &mut Steps<L>,
) -> (Runner<S>, Looked)
    requires own { IsOf table.now runner }
    requires unmoved { (found : Readings) × (old : RunnerState S)
        × HasLock (S.meaning table.now.structure) (S.planning table.now.structure) request.now thunk.now found clock
        thunk.now.word old runner }
    requires reply { reply ≡ reply_in ((S.meaning table.now.structure).body thunk.now) }
    ensures own { IsOf table.now result.0 }
    ensures rests { (found : Readings) (old : RunnerState S)
        → (locks : HasLock (S.meaning table.now.structure) (S.planning table.now.structure) request.now thunk.now found
        clock thunk.now.word old runner)
        → Rests (S.meaning table.now.structure) (S.planning table.now.structure) request.now
        (locked_steps (S.meaning table.now.structure) (S.planning table.now.structure) request.now thunk.now found clock
        thunk.now.word old runner locks)
        (read_of result.1) old result.0 (IsSeen G.halts G.asks)
        (G.halts gate.old) (G.halts gate.new) (G.asks gate.old) (G.asks gate.new) steps.old.count steps.new.count }
{
    let _ = request;
    looks_are_small(table.structure());
    let (runner, word, going) = write_reply(table, runner, thunk, reply, gate, steps);
    if !going {
        return (runner, Looked::Halted);
    }
    let (runner, stamp, going) = write_stamp(table, runner, thunk, clock, gate, steps);
    if !going {
        return (runner, Looked::Halted);
    }
    let runner = exit(table, runner);
    match Reply::from_word(word) {
        Some(reply) => (runner, Looked::Done { reply, stamp }),
        None => unreachable!(),
    }
}

/// Loads the clock, and the lock once more; where this has the plan's word still, the read is made, with this reply.
/// Else it leaves.
#[inline(always)]
fn confirm<S: Planner, G: Gate, L>(
    table: &FlockTable<S>,
    runner: Runner<S>,
    request: &Request,
    thunk: &Thunk,
    reply: u64,
    gate: &mut G,
    steps: &mut Steps<L>,
) -> (Runner<S>, Looked)
    requires own { IsOf table.now runner }
    requires found { (found : Readings) × (old : RunnerState S)
        × HasFound (S.meaning table.now.structure) (S.planning table.now.structure) request.now thunk.now found old
        runner }
    requires reply { reply ≡ reply_in ((S.meaning table.now.structure).body thunk.now) }
    ensures own { IsOf table.now result.0 }
    ensures rests { (found : Readings) (old : RunnerState S)
        → (finds : HasFound (S.meaning table.now.structure) (S.planning table.now.structure) request.now thunk.now found
        old runner)
        → Rests (S.meaning table.now.structure) (S.planning table.now.structure) request.now
        (loaded_steps (S.meaning table.now.structure) (S.planning table.now.structure) request.now thunk.now found
        old runner finds.loads)
        (read_of result.1) old result.0 (IsSeen G.halts G.asks)
        (G.halts gate.old) (G.halts gate.new) (G.asks gate.old) (G.asks gate.new) steps.old.count steps.new.count }
{
    looks_are_small(table.structure());
    let (runner, going) = announce(table, runner, thunk, gate, steps);
    if !going {
        return (runner, Looked::Halted);
    }
    let (runner, clock, going) = load_clock(table, runner, thunk, gate, steps);
    if !going {
        return (runner, Looked::Halted);
    }
    let (runner, word, going) = load_lock(table, runner, thunk, gate, steps);
    if !going {
        return (runner, Looked::Halted);
    }
    if word != thunk.word {
        return (exit(table, runner), lock_moved(thunk, word));
    }
    answer(table, runner, request, thunk, clock, reply, gate, steps)
}

/// Where the first step of the planned thunk's body stands that changes something, if one does. The body of a `get`
/// isn't looked through: where the structure serves the map, it changes nothing.
#[inline(always)]
fn change_in<S: Planner>(
    table: &FlockTable<S>,
    request: &Request,
    thunk: &Thunk,
    body: &BodyView,
) -> Option<usize>
    requires planned { (readings : Readings) × (old : RunnerState S) × (r : RunnerState S)
        × HasPlanned (S.meaning table.now.structure) (S.planning table.now.structure) request.now readings
        (plans.Thunk thunk.now) old r }
    requires body { steps_in body.now ≡ (S.meaning table.now.structure).body thunk.now }
    ensures { result ≡ position (λ step. not (is_look step)) (steps_in body.now) }
{
    let _ = table;
    let _ = thunk;
    match request.op {
        Op::Get(_) if S::MAP => None,
        _ => first_change(body),
    }
}

/// Looks at the body of the thunk that was planned, which is handed in: where it changes nothing, its cells are loaded
/// and tested, and the read is confirmed. Else the runner leaves.
#[inline(always)]
fn look_at<S: Planner, G: Gate, L>(
    table: &FlockTable<S>,
    runner: Runner<S>,
    request: &Request,
    thunk: &Thunk,
    body: &BodyView,
    gate: &mut G,
    steps: &mut Steps<L>,
) -> (Runner<S>, Looked)
    requires own { IsOf table.now runner }
    requires planned { (readings : Readings) × (old : RunnerState S)
        × HasPlanned (S.meaning table.now.structure) (S.planning table.now.structure) request.now readings
        (plans.Thunk thunk.now) old runner }
    requires body { steps_in body.now ≡ (S.meaning table.now.structure).body thunk.now }
    requires few { length (steps_in body.now) ≤ 40 }
    ensures own { IsOf table.now result.0 }
    ensures rests { (readings : Readings) (old : RunnerState S)
        → HasPlanned (S.meaning table.now.structure) (S.planning table.now.structure) request.now readings
        (plans.Thunk thunk.now) old runner
        → Rests (S.meaning table.now.structure) (S.planning table.now.structure) request.now (length readings)
        (read_of result.1) old result.0 (IsSeen G.halts G.asks)
        (G.halts gate.old) (G.halts gate.new) (G.asks gate.old) (G.asks gate.new) steps.old.count steps.new.count }
{
    if let Some(at) = change_in(table, request, thunk, body) {
        return (exit(table, runner), Looked::Locked { at: at as u32 });
    }
    let (runner, missed, going) = load_cells(table, runner, body, gate, steps);
    if !going {
        return (runner, Looked::Halted);
    }
    if let Some(missed) = missed {
        let stale = Looked::Stale {
            place: missed.place,
            expected: missed.expected,
            read: missed.read,
        };
        return (exit(table, runner), stale);
    }
    confirm(table, runner, request, thunk, reply_of(body), gate, steps)
}

/// As `look_at`. The asks of a gate that never halts are counted apart, and it is told them in the end.
#[inline(always)]
fn look_asked<S: Planner, G: Gate, L>(
    table: &FlockTable<S>,
    runner: Runner<S>,
    request: &Request,
    thunk: &Thunk,
    body: &BodyView,
    gate: &mut G,
    steps: &mut Steps<L>,
) -> (Runner<S>, Looked)
    requires own { IsOf table.now runner }
    requires planned { (readings : Readings) × (old : RunnerState S)
        × HasPlanned (S.meaning table.now.structure) (S.planning table.now.structure) request.now readings
        (plans.Thunk thunk.now) old runner }
    requires body { steps_in body.now ≡ (S.meaning table.now.structure).body thunk.now }
    requires few { length (steps_in body.now) ≤ 40 }
    ensures own { IsOf table.now result.0 }
    ensures rests { (readings : Readings) (old : RunnerState S)
        → HasPlanned (S.meaning table.now.structure) (S.planning table.now.structure) request.now readings
        (plans.Thunk thunk.now) old runner
        → Rests (S.meaning table.now.structure) (S.planning table.now.structure) request.now (length readings)
        (read_of result.1) old result.0 (IsSeen G.halts G.asks)
        (G.halts gate.old) (G.halts gate.new) (G.asks gate.old) (G.asks gate.new) steps.old.count steps.new.count }
{
    if !gate.is_free() {
        return look_at(table, runner, request, thunk, body, gate, steps);
    }
    let mut made = Steps::<L>::new();
    let (runner, answer) = look_at(table, runner, request, thunk, body, &mut Unasked, &mut made);
    tell(gate, steps, &made);
    (runner, answer)
}

/// As `look_written`, where the room that the runner keeps is out: the read makes a body. It is a call of its own,
/// since a caller would clear the body's place before each read, though it seldom needs it.
#[inline(never)]
fn look_anew<S: Planner, G: Gate, L>(
    table: &FlockTable<S>,
    runner: Runner<S>,
    request: &Request,
    thunk: &Thunk,
    gate: &mut G,
    steps: &mut Steps<L>,
) -> (Runner<S>, Looked)
    requires own { IsOf table.now runner }
    requires planned { (readings : Readings) × (old : RunnerState S)
        × HasPlanned (S.meaning table.now.structure) (S.planning table.now.structure) request.now readings
        (plans.Thunk thunk.now) old runner }
    ensures own { IsOf table.now result.0 }
    ensures rests { (readings : Readings) (old : RunnerState S)
        → HasPlanned (S.meaning table.now.structure) (S.planning table.now.structure) request.now readings
        (plans.Thunk thunk.now) old runner
        → Rests (S.meaning table.now.structure) (S.planning table.now.structure) request.now (length readings)
        (read_of result.1) old result.0 (IsSeen G.halts G.asks)
        (G.halts gate.old) (G.halts gate.new) (G.asks gate.old) (G.asks gate.new) steps.old.count steps.new.count }
{
    let mut body = Body::empty();
    table.structure().body_in(thunk, &mut body);
    let view = BodyView::Written(body.steps.as_slice());
    look_asked(table, runner, request, thunk, &view, gate, steps)
}

/// As `look`, where the steps are written down: a body that the runner keeps for its runs is refilled with them, which
/// is cheaper than to make one.
#[inline(always)]
fn look_written<S: Planner, G: Gate, L>(
    table: &FlockTable<S>,
    mut runner: Runner<S>,
    request: &Request,
    thunk: &Thunk,
    gate: &mut G,
    steps: &mut Steps<L>,
) -> (Runner<S>, Looked)
    requires own { IsOf table.now runner }
    requires planned { (readings : Readings) × (old : RunnerState S)
        × HasPlanned (S.meaning table.now.structure) (S.planning table.now.structure) request.now readings
        (plans.Thunk thunk.now) old runner }
    ensures own { IsOf table.now result.0 }
    ensures rests { (readings : Readings) (old : RunnerState S)
        → HasPlanned (S.meaning table.now.structure) (S.planning table.now.structure) request.now readings
        (plans.Thunk thunk.now) old runner
        → Rests (S.meaning table.now.structure) (S.planning table.now.structure) request.now (length readings)
        (read_of result.1) old result.0 (IsSeen G.halts G.asks)
        (G.halts gate.old) (G.halts gate.new) (G.asks gate.old) (G.asks gate.new) steps.old.count steps.new.count }
{
    let Some(mut room) = runner.take_room() else {
        return look_anew(table, runner, request, thunk, gate, steps);
    };
    let RunRoom { bodies, trail: _ } = &mut *room;
    let body = &mut bodies[(thunk.form % 4) as usize];
    table.structure().body_in(thunk, body);
    let view = BodyView::Written(body.steps.as_slice());
    let (mut runner, answer) = look_asked(table, runner, request, thunk, &view, gate, steps);
    runner.keep_room(room);
    (runner, answer)
}

/// Looks at the body of the thunk that was planned. Where it looks at one cell or two, and the structure tells which,
/// none of its steps is written down.
#[inline(always)]
fn look<S: Planner, G: Gate, L>(
    table: &FlockTable<S>,
    runner: Runner<S>,
    request: &Request,
    thunk: &Thunk,
    gate: &mut G,
    steps: &mut Steps<L>,
) -> (Runner<S>, Looked)
    requires own { IsOf table.now runner }
    requires planned { (readings : Readings) × (old : RunnerState S)
        × HasPlanned (S.meaning table.now.structure) (S.planning table.now.structure) request.now readings
        (plans.Thunk thunk.now) old runner }
    ensures own { IsOf table.now result.0 }
    ensures rests { (readings : Readings) (old : RunnerState S)
        → HasPlanned (S.meaning table.now.structure) (S.planning table.now.structure) request.now readings
        (plans.Thunk thunk.now) old runner
        → Rests (S.meaning table.now.structure) (S.planning table.now.structure) request.now (length readings)
        (read_of result.1) old result.0 (IsSeen G.halts G.asks)
        (G.halts gate.old) (G.halts gate.new) (G.asks gate.old) (G.asks gate.new) steps.old.count steps.new.count }
{
    let Some(glance) = table.structure().glance(thunk) else {
        return look_written(table, runner, request, thunk, gate, steps);
    };
    let view = BodyView::Glanced(glance);
    look_asked(table, runner, request, thunk, &view, gate, steps)
}

/// Reads a request once, without its lock.
///
/// The runner enters, plans the request's section, and looks at its body. Where this changes nothing, it loads the
/// cells that the body loads and tests what the body wants of them, announces the read, loads the clock, loads the lock
/// once more, writes the reply and then the stamp, and leaves. The request is one of the table's, of a trace that this
/// runner serves; the runner knows the answers of the trace's earlier requests and not yet this one's; it is idle, with
/// an empty hand.
///
/// - `Done`: between its two equal readings of the lock the cells held what the body wants. The request stands once in
///   the one history, with this stamp, twice the loaded clock and one, and with this reply; its stamp word and its
///   reply word hold them. The stamp is above those of all requests that were answered as the read began, by whomever,
///   or it is the same odd one, so that both are of reads.
/// - `Locked`: the body changes something; this is its first such step.
/// - `Busy`: a lock was held, as the plan read it, or behind the load of the clock. Nobody is helped.
/// - `Stale`: a word was read, and then another one at the same place; or a node that was reached has been taken out.
/// - `Far`: the walk loaded as many links as there are node slots, and eight more, and came to no end.
/// - `Spent`: a lock has too few versions left.
/// - `Halted`: the gate halted the runner. Exactly then its count of halts rose.
///
/// After every answer but `Halted` the runner is idle, and may read or attempt again. After every answer but `Done` and
/// `Halted` nobody has served the request, which has neither word. After `Halted` the runner stays entered, and can
/// only be joined; the request is served exactly where the gate halted it behind the exchange of the stamp.
///
/// The gate is asked once behind the entry, and after each counted step. The runner takes no lock and no slot, runs no
/// section, takes no memory, and waits for nothing (after Hemminger's seqlocks, and Boehm, *Can seqlocks get along with
/// programming language memory models?*, 2012).
pub fn read<S: Planner, G: Gate, L>(
    table: &FlockTable<S>,
    runner: Runner<S>,
    request: &Request,
    gate: &mut G,
    steps: &mut Steps<L>,
) -> (Runner<S>, Read)
    requires own { IsOf table.now runner }
    requires next { MayAttempt (S.planning table.now.structure) request.now runner }
    ensures own { IsOf table.now result.0 }
    ensures reads { Reads (S.meaning table.now.structure) (S.planning table.now.structure)
        request.now result.1 runner result.0 (IsSeen G.halts G.asks)
        (G.halts gate.old) (G.halts gate.new) (G.asks gate.old) (G.asks gate.new) steps.old.count steps.new.count }
{
    let runner = enter(table, runner);
    if !goes_on(gate, StepKind::Entered) {
        return (runner, Read::Halted);
    }
    let (runner, planned) = table.structure().plan(table, runner, request, gate, steps);
    match planned {
        Planned::Thunk(thunk) => {
            let (runner, looked) = look(table, runner, request, &thunk, gate, steps);
            (runner, as_read(looked))
        }
        Planned::Halted => (runner, Read::Halted),
        refused => (exit(table, runner), plan_refused(refused)),
    }
}
