//! One step of a run's body.
ghost use Rattle.std.specs.Prelude.{◌≡◌, ◌≢◌, ℕ, ◌+◌, ◌≤◌, true, false, length, cond};
ghost use Rattle.idem_cell.specs.machine_states.specs.body_terms.specs.Line.{Registers, registers_after};
ghost use Rattle.idem_cell.specs.machine_states.specs.body_terms.specs.Shape.{is_make};
ghost use Rattle.idem_cell.specs.machine_states.specs.body_terms.specs.declared.outcome.Outcome.{Outcome};
ghost use Rattle.idem_cell.specs.machine_states.specs.body_terms.specs.declared.step.Step.TheVariants as kinds;
ghost use Rattle.idem_alloc.specs.commit_log.specs.version_words.specs.TableState.{IsOf};
ghost use Rattle.idem_alloc.specs.commit_log.specs.Halted.{IsThrough, IsHalted};
ghost use Rattle.idem_alloc.specs.commit_log.specs.Links.{links_cost};
ghost use Rattle.section_runs.specs.Reached.{run_of};
ghost use Rattle.section_runs.specs.Bodies.{MayGo, GoesOn, Leaves};
ghost use Rattle.section_runs.specs.Goes.{MayGoBy, MayGoAt, Went};
ghost use Rattle.section_runs.specs.Registers.{AreKept, IsWithin};
ghost use Rattle.section_runs.specs.declared.passed.Passed.TheVariants.{On, Left, Halted};

use crate::passed::Passed;
use crate::registers::Places;
use crate::values::{agree_on, taken, tested, value_in, wanted};
use idem_alloc::commit_log::passes;
use idem_alloc::commit_log::version_words::{FlockTable, Runner};
use idem_alloc::{make_gated, retire_gated};
use idem_cell::body_terms::{Init, Place, Step, StepKind, Steps, Trail, Value, Word};
use idem_cell::runner_gate::Gate;
use idem_cell::section_lines::structure_laws::Structure;
use idem_cell::{load_gated, store};
use nested_lock::take_gated;

/// Loads a cell and agrees on its word.
fn load_step<S: Structure, G: Gate, L>(
    table: &FlockTable<S>,
    runner: Runner<S>,
    place: Place,
    trail: &mut Trail,
    gate: &mut G,
    steps: &mut Steps<L>,
) -> (Runner<S>, bool)
    requires own { IsOf table.now runner }
    requires next { (into : ℕ) × MayGo (S.meaning table.now.structure) (kinds.Load place into) runner }
    requires trail { trail.old.words ≡ (run_of runner).trail }
    ensures own { IsOf table.now result.0 }
    ensures goes { result.1 ≡ true → (into : ℕ)
        → GoesOn (S.meaning table.now.structure) (kinds.Load place into) runner result.0 }
    ensures trail { result.1 ≡ true → trail.new.words ≡ (run_of result.0).trail }
    ensures late { trail.new.late ≡ trail.old.late }
    ensures through { result.1 ≡ true → IsThrough (S.meaning table.now.structure)
        (2 + links_cost 1 (run_of runner)) runner result.0
        (G.halts gate.old) (G.halts gate.new) (G.asks gate.old) (G.asks gate.new) steps.old.count steps.new.count }
    ensures halted { result.1 ≡ false → IsHalted (S.meaning table.now.structure)
        (2 + links_cost 1 (run_of runner)) runner result.0
        (G.halts gate.old) (G.halts gate.new) (G.asks gate.old) (G.asks gate.new) steps.old.count steps.new.count }
{
    let (runner, word) = load_gated(table, runner, place, gate, steps);
    match word {
        Some(word) => {
            trail.agree(word.bits());
            (runner, true)
        }
        None => (runner, false),
    }
}

/// Makes a node with these values and agrees on its slot.
fn make_step<S: Structure, G: Gate, L>(
    table: &FlockTable<S>,
    runner: Runner<S>,
    init: Init,
    kept: &Places,
    trail: &mut Trail,
    gate: &mut G,
    steps: &mut Steps<L>,
) -> (Runner<S>, bool)
    requires own { IsOf table.now runner }
    requires next { (into : ℕ) × MayGoBy (S.meaning table.now.structure) (kinds.Make init into) kept.now runner }
    requires reserve { 1 ≤ length runner.part.nodes.free }
    requires trail { trail.old.words ≡ (run_of runner).trail }
    ensures own { IsOf table.now result.0 }
    ensures goes { result.1 ≡ true → (into : ℕ)
        → GoesOn (S.meaning table.now.structure) (kinds.Make init into) runner result.0 }
    ensures trail { result.1 ≡ true → trail.new.words ≡ (run_of result.0).trail }
    ensures late { trail.new.late ≡ trail.old.late }
    ensures through { result.1 ≡ true → IsThrough (S.meaning table.now.structure)
        (11 + links_cost 1 (run_of runner)) runner result.0
        (G.halts gate.old) (G.halts gate.new) (G.asks gate.old) (G.asks gate.new) steps.old.count steps.new.count }
    ensures halted { result.1 ≡ false → IsHalted (S.meaning table.now.structure)
        (11 + links_cost 1 (run_of runner)) runner result.0
        (G.halts gate.old) (G.halts gate.new) (G.asks gate.old) (G.asks gate.new) steps.old.count steps.new.count }
{
    let values = [
        value_in(kept, trail, init.cells[0]),
        value_in(kept, trail, init.cells[1]),
        value_in(kept, trail, init.cells[2]),
        value_in(kept, trail, init.cells[3]),
        value_in(kept, trail, init.cells[4]),
    ];
    let (runner, slot) = make_gated(table, runner, &values, gate, steps);
    match slot {
        Some(slot) => {
            trail.agree(slot as u64 + 1);
            (runner, true)
        }
        None => (runner, false),
    }
}

/// Stores a value in the cell of a register.
fn store_step<S: Structure, G: Gate, L>(
    table: &FlockTable<S>,
    runner: Runner<S>,
    reg: u8,
    value: Value,
    kept: &Places,
    trail: &Trail,
    gate: &mut G,
    steps: &mut Steps<L>,
) -> (Runner<S>, bool)
    requires own { IsOf table.now runner }
    requires next { MayGoBy (S.meaning table.now.structure) (kinds.Store reg value) kept.now runner }
    requires trail { trail.now.words ≡ (run_of runner).trail }
    ensures own { IsOf table.now result.0 }
    ensures goes { result.1 ≡ true
        → GoesOn (S.meaning table.now.structure) (kinds.Store reg value) runner result.0 }
    ensures trail { result.1 ≡ true → trail.now.words ≡ (run_of result.0).trail }
    ensures through { result.1 ≡ true → IsThrough (S.meaning table.now.structure) 1 runner result.0
        (G.halts gate.old) (G.halts gate.new) (G.asks gate.old) (G.asks gate.new) steps.old.count steps.new.count }
    ensures halted { result.1 ≡ false → IsHalted (S.meaning table.now.structure) 1 runner result.0
        (G.halts gate.old) (G.halts gate.new) (G.asks gate.old) (G.asks gate.new) steps.old.count steps.new.count }
{
    let place = kept.places[reg as usize];
    let old = trail.word(kept.logs[reg as usize] as u32);
    let number = value_in(kept, trail, value);
    let runner = store(table, runner, place, old, number);
    let going = passes(gate, steps, StepKind::CellExchange);
    (runner, going)
}

/// Retires a node slot.
fn retire_step<S: Structure, G: Gate, L>(
    table: &FlockTable<S>,
    runner: Runner<S>,
    slot: u32,
    trail: &mut Trail,
    gate: &mut G,
    steps: &mut Steps<L>,
) -> (Runner<S>, bool)
    requires own { IsOf table.now runner }
    requires next { MayGo (S.meaning table.now.structure) (kinds.Retire slot) runner }
    requires trail { trail.old.words ≡ (run_of runner).trail }
    ensures own { IsOf table.now result.0 }
    ensures goes { result.1 ≡ true → GoesOn (S.meaning table.now.structure) (kinds.Retire slot) runner result.0 }
    ensures trail { result.1 ≡ true → trail.new.words ≡ (run_of result.0).trail }
    ensures late { trail.new.late ≡ trail.old.late }
    ensures through { result.1 ≡ true → IsThrough (S.meaning table.now.structure)
        (2 + links_cost 1 (run_of runner)) runner result.0
        (G.halts gate.old) (G.halts gate.new) (G.asks gate.old) (G.asks gate.new) steps.old.count steps.new.count }
    ensures halted { result.1 ≡ false → IsHalted (S.meaning table.now.structure)
        (2 + links_cost 1 (run_of runner)) runner result.0
        (G.halts gate.old) (G.halts gate.new) (G.asks gate.old) (G.asks gate.new) steps.old.count steps.new.count }
{
    let (runner, going) = retire_gated(table, runner, slot, gate, steps);
    trail.agree(slot as u64 + 1);
    (runner, going)
}

/// Takes a further lock for the section of this descriptor.
fn take_step<S: Structure, G: Gate, L>(
    table: &FlockTable<S>,
    runner: Runner<S>,
    descriptor: u32,
    place: Place,
    word: Word,
    trail: &mut Trail,
    gate: &mut G,
    steps: &mut Steps<L>,
) -> (Runner<S>, Passed)
    requires own { IsOf table.now runner }
    requires next { MayGo (S.meaning table.now.structure) (kinds.Take place word) runner }
    requires section { descriptor ≡ (run_of runner).descriptor }
    requires trail { trail.old.words ≡ (run_of runner).trail }
    ensures own { IsOf table.now result.0 }
    ensures goes { result.1 ≡ On → GoesOn (S.meaning table.now.structure) (kinds.Take place word) runner result.0 }
    ensures leaves { (o : Outcome) → result.1 ≡ Left o
        → Leaves (S.meaning table.now.structure) (kinds.Take place word) o runner result.0 }
    ensures trail { result.1 ≢ Halted → trail.new.words ≡ (run_of result.0).trail }
    ensures late { trail.new.late ≡ trail.old.late }
    ensures through { result.1 ≢ Halted → IsThrough (S.meaning table.now.structure)
        (5 + links_cost 2 (run_of runner)) runner result.0
        (G.halts gate.old) (G.halts gate.new) (G.asks gate.old) (G.asks gate.new) steps.old.count steps.new.count }
    ensures halted { result.1 ≡ Halted → IsHalted (S.meaning table.now.structure)
        (5 + links_cost 2 (run_of runner)) runner result.0
        (G.halts gate.old) (G.halts gate.new) (G.asks gate.old) (G.asks gate.new) steps.old.count steps.new.count }
{
    let (runner, end) = take_gated(table, runner, descriptor, place, word, gate, steps);
    match end {
        Some(end) => {
            agree_on(&end, trail);
            (runner, taken(place, &end))
        }
        None => (runner, Passed::Halted),
    }
}

/// Gives the request its stamp, in three steps: loads the clock, exchanges the stamp word, and raises the clock.
fn stamp_step<S: Structure, G: Gate, L>(
    table: &FlockTable<S>,
    runner: Runner<S>,
    gate: &mut G,
    steps: &mut Steps<L>,
) -> (Runner<S>, bool)
    requires own { IsOf table.now runner }
    requires next { MayGo (S.meaning table.now.structure) kinds.Stamp runner }
    ensures own { IsOf table.now result.0 }
    ensures goes { result.1 ≡ true → GoesOn (S.meaning table.now.structure) kinds.Stamp runner result.0 }
    ensures trail { result.1 ≡ true → (run_of result.0).trail ≡ (run_of runner).trail }
    ensures through { result.1 ≡ true → IsThrough (S.meaning table.now.structure) 3 runner result.0
        (G.halts gate.old) (G.halts gate.new) (G.asks gate.old) (G.asks gate.new) steps.old.count steps.new.count }
    ensures halted { result.1 ≡ false → IsHalted (S.meaning table.now.structure) 3 runner result.0
        (G.halts gate.old) (G.halts gate.new) (G.asks gate.old) (G.asks gate.new) steps.old.count steps.new.count }
{
    let (runner, clock) = table.clock_load(runner);
    if !passes(gate, steps, StepKind::ClockLoad) {
        return (runner, false);
    }
    let (runner, stamp) = table.stamp_exchange(runner, 2 * (clock + 1));
    if !passes(gate, steps, StepKind::StampExchange) {
        return (runner, false);
    }
    let runner = table.clock_raise(runner, stamp / 2);
    let going = passes(gate, steps, StepKind::ClockRaise);
    (runner, going)
}

/// Gives the request its reply word.
fn answer_step<S: Structure, G: Gate, L>(
    table: &FlockTable<S>,
    runner: Runner<S>,
    reply: u64,
    gate: &mut G,
    steps: &mut Steps<L>,
) -> (Runner<S>, bool)
    requires own { IsOf table.now runner }
    requires next { MayGo (S.meaning table.now.structure) (kinds.Answer reply) runner }
    ensures own { IsOf table.now result.0 }
    ensures goes { result.1 ≡ true → GoesOn (S.meaning table.now.structure) (kinds.Answer reply) runner result.0 }
    ensures trail { result.1 ≡ true → (run_of result.0).trail ≡ (run_of runner).trail }
    ensures through { result.1 ≡ true → IsThrough (S.meaning table.now.structure) 1 runner result.0
        (G.halts gate.old) (G.halts gate.new) (G.asks gate.old) (G.asks gate.new) steps.old.count steps.new.count }
    ensures halted { result.1 ≡ false → IsHalted (S.meaning table.now.structure) 1 runner result.0
        (G.halts gate.old) (G.halts gate.new) (G.asks gate.old) (G.asks gate.new) steps.old.count steps.new.count }
{
    let (runner, _) = table.reply_exchange(runner, reply);
    let going = passes(gate, steps, StepKind::ReplyExchange);
    (runner, going)
}

/// What a call without an outcome gives: the run goes on, or the gate halted the runner.
fn passed(going: bool) -> Passed
    ensures { result ≡ cond going On Halted }
{
    if going { Passed::On } else { Passed::Halted }
}

/// How many words were agreed on.
fn count_of(trail: &Trail) -> u8
    ensures { result ≡ length trail.now.words }
{
    trail.words.len() as u8
}

/// Makes step `n` of the body, and notes the register that it sets. Each atomic step is counted, and the gate is asked
/// after it.
///
/// The register is noted here, by the kinds that set one, and not behind: so the kind is looked at once.
pub fn step_gated<S: Structure, G: Gate, L>(
    table: &FlockTable<S>,
    runner: Runner<S>,
    descriptor: u32,
    n: usize,
    step: &Step,
    kept: &mut Places,
    trail: &mut Trail,
    gate: &mut G,
    steps: &mut Steps<L>,
) -> (Runner<S>, Passed)
    requires own { IsOf table.now runner }
    requires next { MayGoAt (S.meaning table.now.structure) n step.now kept.old runner }
    requires within { IsWithin step.now }
    requires section { descriptor ≡ (run_of runner).descriptor }
    requires trail { trail.old.words ≡ (run_of runner).trail }
    requires reserve { is_make step.now ≡ true → 1 ≤ length runner.part.nodes.free }
    ensures own { IsOf table.now result.0 }
    ensures went { Went (S.meaning table.now.structure) n step.now result.1 runner result.0 trail.old trail.new
        (G.halts gate.old) (G.halts gate.new) (G.asks gate.old) (G.asks gate.new) steps.old.count steps.new.count }
    ensures kept { (g : Registers) → AreKept kept.old g → length trail.old.words ≡ g.count
        → AreKept kept.new (registers_after g step.now) }
{
    let _ = n;
    match *step {
        Step::Load { place, into: _ } => {
            let count = count_of(trail);
            let (runner, going) = load_step(table, runner, place, trail, gate, steps);
            kept.note(step, count);
            (runner, passed(going))
        }
        Step::Want { reg, word } => (runner, wanted(kept, trail, reg, word)),
        Step::Fresh { reg } => (runner, tested(kept, trail, reg, table.layout().version_max)),
        Step::Take { place, word } => {
            take_step(table, runner, descriptor, place, word, trail, gate, steps)
        }
        Step::Make { init, into: _ } => {
            let count = count_of(trail);
            let (runner, going) = make_step(table, runner, init, kept, trail, gate, steps);
            kept.note(step, count);
            (runner, passed(going))
        }
        Step::Stamp => {
            let (runner, going) = stamp_step(table, runner, gate, steps);
            (runner, passed(going))
        }
        Step::Store { reg, value } => {
            let (runner, going) = store_step(table, runner, reg, value, kept, trail, gate, steps);
            (runner, passed(going))
        }
        Step::Retire { slot } => {
            let (runner, going) = retire_step(table, runner, slot, trail, gate, steps);
            (runner, passed(going))
        }
        Step::Answer { reply } => {
            let (runner, going) = answer_step(table, runner, reply, gate, steps);
            (runner, passed(going))
        }
    }
}
