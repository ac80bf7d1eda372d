//! The loads of a plan, and its answer.
ghost use Rattle.std.specs.Prelude.{◌≡◌, ◌+◌, ◌<◌, true, is_some, Some};
ghost use Rattle.machine_states.specs.map_history.specs.declared.op.Op.{Op};
ghost use Rattle.machine_states.specs.table_words.specs.Limits.{IsWithinLimits};
ghost use Rattle.machine_states.specs.structure_laws.specs.Scene.{Readings};
ghost use Rattle.machine_states.specs.structure_laws.specs.Cells.{slots};
ghost use Rattle.machine_states.specs.structure_laws.specs.Sections.{IsAllowed};
ghost use Rattle.try_lock.specs.commit_log.specs.version_words.specs.TableState.{IsOf};
ghost use Rattle.try_lock.specs.Plans.{MayPlan, HasPlanned, refused_at};
ghost use Rattle.lock_walks.specs.Way.{Leads};
ghost use Rattle.lock_walks.specs.Own.{IsOwn};
ghost use Rattle.lock_walks.specs.Led.{HasLed, Start, IsOnWay, GoesOn, GoesThrough};

use crate::walker::Walker;
use machine_states::body_terms::{Place, StepKind, Steps, Word};
use machine_states::map_history::Request;
use machine_states::structure_laws::Structure;
use machine_states::table_words::Layout;
use runner_facts::walks_stand;
use try_lock::Planned;
use try_lock::commit_log::version_words::{FlockTable, Runner};
use try_lock::commit_log::{Unasked, passes, tell};
use try_lock::section_runs::runner_gate::Gate;

/// Makes the load that the walker wants, if it wants one, and goes on by the word; the gate is asked behind it. Gives
/// the last place with its word, and whether the gate let the runner go on.
#[inline(always)]
fn load_next<S: Structure, W: Walker, G: Gate, L>(
    table: &FlockTable<S>,
    runner: Runner<S>,
    walker: &mut W,
    place: Place,
    word: Word,
    gate: &mut G,
    steps: &mut Steps<L>,
) -> (Runner<S>, Place, Word, bool)
    requires own { IsOf table.now runner }
    requires on_way { (start : Start W S)
        × IsOnWay (S.meaning table.now.structure) table.now.layout W.way start walker.old place word runner
        (G.halts gate.old) (G.asks gate.old) steps.old.count }
    ensures own { IsOf table.now result.0 }
    ensures goes { GoesOn (S.meaning table.now.structure) table.now.layout W.way
        walker.old walker.new place word result.1 result.2 result.3 runner result.0
        (G.halts gate.old) (G.halts gate.new) (G.asks gate.old) (G.asks gate.new) steps.old.count steps.new.count }
    ensures nearer { is_some (W.way.wants walker.old) ≡ true → W.way.left walker.new < W.way.left walker.old }
{
    walks_stand(table.structure());
    let Some(wanted) = walker.wanted() else {
        return (runner, place, word, true);
    };
    let wanted = wanted as Place;
    let (runner, found) = table.load_cell(runner, wanted);
    walker.feed(found);
    let going = passes(gate, steps, StepKind::Walk);
    (runner, wanted, found, going)
}

/// Makes the loads by which a walk comes past a node: two, and a third where the walker turns aside.
#[inline(always)]
fn pass_node<S: Structure, W: Walker, G: Gate, L>(
    table: &FlockTable<S>,
    runner: Runner<S>,
    walker: &mut W,
    place: Place,
    word: Word,
    gate: &mut G,
    steps: &mut Steps<L>,
) -> (Runner<S>, Place, Word, bool)
    requires own { IsOf table.now runner }
    requires on_way { (start : Start W S)
        × IsOnWay (S.meaning table.now.structure) table.now.layout W.way start walker.old place word runner
        (G.halts gate.old) (G.asks gate.old) steps.old.count }
    ensures own { IsOf table.now result.0 }
    ensures goes { GoesOn (S.meaning table.now.structure) table.now.layout W.way
        walker.old walker.new place word result.1 result.2 result.3 runner result.0
        (G.halts gate.old) (G.halts gate.new) (G.asks gate.old) (G.asks gate.new) steps.old.count steps.new.count }
{
    let (runner, place, word, going) = load_next(table, runner, walker, place, word, gate, steps);
    if !going {
        return (runner, place, word, false);
    }
    let (runner, place, word, going) = load_next(table, runner, walker, place, word, gate, steps);
    if !going {
        return (runner, place, word, false);
    }
    if !walker.turns_aside() {
        return (runner, place, word, true);
    }
    load_next(table, runner, walker, place, word, gate, steps)
}

/// Goes past nodes as long as the walker is on links.
#[inline(always)]
fn pass_nodes<S: Structure, W: Walker, G: Gate, L>(
    table: &FlockTable<S>,
    runner: Runner<S>,
    walker: &mut W,
    place: Place,
    word: Word,
    gate: &mut G,
    steps: &mut Steps<L>,
) -> (Runner<S>, Place, Word, bool)
    requires own { IsOf table.now runner }
    requires on_way { (start : Start W S)
        × IsOnWay (S.meaning table.now.structure) table.now.layout W.way start walker.old place word runner
        (G.halts gate.old) (G.asks gate.old) steps.old.count }
    ensures own { IsOf table.now result.0 }
    ensures goes { GoesOn (S.meaning table.now.structure) table.now.layout W.way
        walker.old walker.new place word result.1 result.2 result.3 runner result.0
        (G.halts gate.old) (G.halts gate.new) (G.asks gate.old) (G.asks gate.new) steps.old.count steps.new.count }
{
    let mut runner = runner;
    let mut place = place;
    let mut word = word;
    for _passed in 0..u64::MAX {
        if !walker.is_on_links() {
            return (runner, place, word, true);
        }
        let (loaded, at, found, going) = pass_node(table, runner, walker, place, word, gate, steps);
        runner = loaded;
        place = at;
        word = found;
        if !going {
            return (runner, place, word, false);
        }
    }
    (runner, place, word, true)
}

/// Makes the loads that are left, until the walker wants nothing more or the gate halts.
#[inline(always)]
fn end_walk<S: Structure, W: Walker, G: Gate, L>(
    table: &FlockTable<S>,
    runner: Runner<S>,
    walker: &mut W,
    place: Place,
    word: Word,
    gate: &mut G,
    steps: &mut Steps<L>,
) -> (Runner<S>, Place, Word, bool)
    requires own { IsOf table.now runner }
    requires on_way { (start : Start W S)
        × IsOnWay (S.meaning table.now.structure) table.now.layout W.way start walker.old place word runner
        (G.halts gate.old) (G.asks gate.old) steps.old.count }
    ensures own { IsOf table.now result.0 }
    ensures led { GoesThrough (S.meaning table.now.structure) table.now.layout W.way
        walker.old walker.new place word result.1 result.2 result.3 runner result.0
        (G.halts gate.old) (G.halts gate.new) (G.asks gate.old) (G.asks gate.new) steps.old.count steps.new.count }
{
    walks_stand(table.structure());
    let mut runner = runner;
    let mut place = place;
    let mut word = word;
    for _made in 0..u64::MAX {
        let Some(_wanted) = walker.wanted() else {
            return (runner, place, word, true);
        };
        let (loaded, at, found, going) = load_next(table, runner, walker, place, word, gate, steps);
        runner = loaded;
        place = at;
        word = found;
        if !going {
            return (runner, place, word, false);
        }
    }
    (runner, place, word, true)
}

/// Loads what the walker wants, until it wants nothing more or the gate halts, which is asked after each load. Gives
/// the last place with its word, and whether the gate let the runner go on.
#[inline(always)]
fn walk_on<S: Structure, W: Walker, G: Gate, L>(
    table: &FlockTable<S>,
    runner: Runner<S>,
    walker: &mut W,
    gate: &mut G,
    steps: &mut Steps<L>,
) -> (Runner<S>, Place, Word, bool)
    requires own { IsOf table.now runner }
    requires entered { MayPlan runner }
    requires allowed { IsAllowed (W.way.op walker.old) }
    requires leads { Leads W.way (S.meaning table.now.structure) table.now.layout walker.old }
    ensures own { IsOf table.now result.0 }
    ensures led { HasLed (S.meaning table.now.structure) table.now.layout W.way
        walker.old walker.new result.1 result.2 result.3 runner result.0
        (G.halts gate.old) (G.halts gate.new) (G.asks gate.old) (G.asks gate.new) steps.old.count steps.new.count }
{
    walks_stand(table.structure());
    let (runner, place, word, going) = load_next(
        table,
        runner,
        walker,
        0,
        Word::from_bits(0),
        gate,
        steps,
    );
    if !going {
        return (runner, place, word, false);
    }
    let (runner, place, word, going) = pass_nodes(table, runner, walker, place, word, gate, steps);
    if !going {
        return (runner, place, word, false);
    }
    end_walk(table, runner, walker, place, word, gate, steps)
}

/// Leads the runner on its walk, as `walk_on` does. The asks of a gate that never halts are counted apart, and it is
/// told them in the end.
#[inline(always)]
fn lead<S: Structure, W: Walker, G: Gate, L>(
    table: &FlockTable<S>,
    runner: Runner<S>,
    walker: &mut W,
    gate: &mut G,
    steps: &mut Steps<L>,
) -> (Runner<S>, Place, Word, bool)
    requires own { IsOf table.now runner }
    requires entered { MayPlan runner }
    requires allowed { IsAllowed (W.way.op walker.old) }
    requires leads { Leads W.way (S.meaning table.now.structure) table.now.layout walker.old }
    ensures own { IsOf table.now result.0 }
    ensures led { HasLed (S.meaning table.now.structure) table.now.layout W.way
        walker.old walker.new result.1 result.2 result.3 runner result.0
        (G.halts gate.old) (G.halts gate.new) (G.asks gate.old) (G.asks gate.new) steps.old.count steps.new.count }
{
    if !gate.is_free() {
        return walk_on(table, runner, walker, gate, steps);
    }
    let mut made = Steps::<L>::new();
    let led = walk_on(table, runner, walker, &mut Unasked, &mut made);
    tell(gate, steps, &made);
    led
}

/// How many node slots there are.
fn slot_count<S: Structure>(structure: &S, layout: Layout) -> u64
    requires { IsWithinLimits layout }
    ensures { result ≡ slots (S.meaning structure.now) layout }
{
    let workers = u64::from(layout.nodes) * u64::from(layout.runners);
    u64::from(structure.fixed_slots()) + workers + (2 * u64::from(layout.runners) + 2)
}

/// How this reading, which refuses a plan, refuses it.
fn refusal<S: Structure, W: Walker>(
    structure: &S,
    layout: Layout,
    walker: &W,
    place: Place,
    word: Word,
) -> Planned
    requires { IsWithinLimits layout }
    ensures { (op : Op) (before : Readings)
        → is_some
        (refused_at (S.meaning structure.now) (W.way.planning walker.now) layout op before place word) ≡ true
        → refused_at (S.meaning structure.now) (W.way.planning walker.now) layout op before place word ≡ Some
        result }
{
    if structure.is_lock(place) {
        return if word.value() == 0 {
            Planned::Spent(place, word)
        } else {
            Planned::Busy(place, word)
        };
    }
    if walker.is_mark(place) && word.value() == 1 {
        return Planned::Stale {
            place,
            expected: Word::pack(0, word.version().saturating_sub(1)),
            read: word,
        };
    }
    Planned::Far {
        loads: slot_count(structure, layout) + 8,
    }
}

/// Plans a request by this walker: makes the loads that it wants, and answers the first refusal in the order of
/// reading, or the thunk of the whole walk: the walker's own one, by what the runner has read since it entered. The
/// gate is asked after each load; Halted comes exactly where it halted. No memory is taken.
///
/// The structure is the table's, and the walker walks as the structure plans, for the request's operation. The runner
/// is entered, in no run, and has loaded no cell since it entered (Ben-David, Blelloch, Wei, *Lock-free locks
/// revisited*, 2022).
#[inline(always)]
pub fn plan_by<S: Structure, W: Walker, G: Gate, L>(
    table: &FlockTable<S>,
    runner: Runner<S>,
    request: &Request,
    walker: W,
    gate: &mut G,
    steps: &mut Steps<L>,
) -> (Runner<S>, Planned)
    requires own { IsOf table.now runner }
    requires entered { MayPlan runner }
    requires op { W.way.op walker ≡ request.now.op }
    requires allowed { IsAllowed request.now.op }
    requires leads { Leads W.way (S.meaning table.now.structure) table.now.layout walker }
    ensures own { IsOf table.now result.0 }
    ensures plans { HasPlanned (S.meaning table.now.structure) (W.way.planning walker) request.now
        result.1 runner result.0
        (G.halts gate.old) (G.halts gate.new) (G.asks gate.old) (G.asks gate.new) steps.old.count steps.new.count }
    ensures own_thunk { IsOwn W.way walker request.now.number result.0.part.reads.walk result.1 }
{
    let mut walker = walker;
    let (runner, place, word, going) = lead(table, runner, &mut walker, gate, steps);
    if !going {
        return (runner, Planned::Halted);
    }
    if walker.is_refused() {
        let refused = refusal(table.structure(), table.layout(), &walker, place, word);
        return (runner, refused);
    }
    (runner, Planned::Thunk(walker.thunk(request.number)))
}
