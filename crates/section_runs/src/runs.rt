//! A whole run of a section.
ghost use Rattle.std.specs.Prelude.{◌≡◌, ℕ, ◌≤◌, [], true, false, length};
ghost use Rattle.idem_cell.specs.machine_states.specs.body_terms.specs.Trail.{Agreed};
ghost use Rattle.idem_cell.specs.machine_states.specs.body_terms.specs.declared.outcome.Outcome.{Outcome as Ending};
ghost use Rattle.idem_cell.specs.machine_states.specs.body_terms.specs.declared.thunk.Thunk.{Thunk as Words};
ghost use Rattle.idem_alloc.specs.commit_log.specs.version_words.specs.TableState.{IsOf};
ghost use Rattle.idem_alloc.specs.commit_log.specs.Asked.{IsAsked};
ghost use Rattle.section_runs.specs.Reached.{MayBegin, run_blocks};
ghost use Rattle.section_runs.specs.Opened.{StandsOpened};
ghost use Rattle.section_runs.specs.Ended.{EndsSo, IsCutShort, EndsOpened, HaltsOpened};
ghost use Rattle.section_runs.specs.declared.runs.RunEnd.TheVariants.{Done, Halted};

use crate::bodies::walk;
use crate::ends::end;
use crate::opens::open;
use crate::passed::Walked;
use idem_alloc::commit_log::version_words::{FlockTable, RunRoom, Runner};
use idem_alloc::commit_log::{Unasked, tell};
use idem_cell::body_terms::{Outcome, Step, Steps, Thunk, Trail};
use idem_cell::runner_gate::Gate;
use idem_cell::section_lines::structure_laws::Structure;

/// How a run of a section ended.
#[derive(Debug, Drop)]
pub enum RunEnd {
    /// It came to its end, with this outcome and these agreed words.
    Done(Outcome, Trail),
    /// The gate halted the runner.
    Halted,
}

/// The end of a run with this outcome and a copy of this trail, where the gate let it go on to there.
#[inline(always)]
fn ended(going: bool, outcome: Outcome, trail: &Trail) -> RunEnd
    ensures done { going ≡ true → result ≡ Done outcome trail.now }
    ensures halted { going ≡ false → result ≡ Halted }
{
    if going {
        RunEnd::Done(outcome, trail.copied())
    } else {
        RunEnd::Halted
    }
}

/// A trail that is empty yet, of a run that found its section done or not.
#[inline(always)]
fn trail_of(late: bool) -> Trail
    ensures words { result.words ≡ [] }
    ensures late { result.late ≡ late }
{
    let mut trail = Trail::new();
    trail.late = late;
    trail
}

/// Goes through the steps of the section's body with a trail that is empty yet, and ends the run. Its end has a copy of
/// the trail: where the caller doesn't look at that, the compiler leaves the copy out.
#[inline(always)]
fn run_steps<S: Structure, G: Gate, L>(
    table: &FlockTable<S>,
    runner: Runner<S>,
    descriptor: u32,
    thunk: &Thunk,
    line: &[Step],
    trail: &mut Trail,
    gate: &mut G,
    steps: &mut Steps<L>,
) -> (Runner<S>, RunEnd)
    requires own { IsOf table.now runner }
    requires opened { StandsOpened (S.meaning table.now.structure) descriptor thunk.now trail.old.late runner }
    requires empty { trail.old.words ≡ [] }
    requires line { line.now ≡ (S.meaning table.now.structure).body thunk.now }
    requires reserve { 2 ≤ length runner.part.nodes.free }
    requires blocks { run_blocks ≤ length runner.part.blocks.free }
    ensures own { IsOf table.now result.0 }
    ensures done { EndsOpened (S.meaning table.now.structure) descriptor thunk.now trail.old.late result.1
        runner result.0
        (G.halts gate.old) (G.halts gate.new) (G.asks gate.old) (G.asks gate.new) steps.old.count steps.new.count }
    ensures halted { HaltsOpened (S.meaning table.now.structure) thunk.now result.1 runner result.0
        (G.halts gate.old) (G.halts gate.new) (G.asks gate.old) (G.asks gate.new) steps.old.count steps.new.count }
{
    let (runner, walked) = walk(table, runner, descriptor, line, trail, gate, steps);
    match walked {
        Walked::Over(taken, outcome) => {
            let (runner, going) = end(
                table, runner, line, taken, thunk.lock, thunk.word, gate, steps,
            );
            (runner, ended(going, outcome, trail))
        }
        Walked::Stopped => (runner, RunEnd::Halted),
    }
}

/// As `run_opened`, where the room that the runner keeps is out: the run makes a body and a trail. It is a call of its
/// own, since a caller would clear the places of both before each run, though it seldom needs them.
#[inline(never)]
fn run_anew<S: Structure, G: Gate, L>(
    table: &FlockTable<S>,
    runner: Runner<S>,
    descriptor: u32,
    thunk: &Thunk,
    late: bool,
    gate: &mut G,
    steps: &mut Steps<L>,
) -> (Runner<S>, RunEnd)
    requires own { IsOf table.now runner }
    requires opened { StandsOpened (S.meaning table.now.structure) descriptor thunk.now late runner }
    requires reserve { 2 ≤ length runner.part.nodes.free }
    requires blocks { run_blocks ≤ length runner.part.blocks.free }
    ensures own { IsOf table.now result.0 }
    ensures done { EndsOpened (S.meaning table.now.structure) descriptor thunk.now late result.1 runner result.0
        (G.halts gate.old) (G.halts gate.new) (G.asks gate.old) (G.asks gate.new) steps.old.count steps.new.count }
    ensures halted { HaltsOpened (S.meaning table.now.structure) thunk.now result.1 runner result.0
        (G.halts gate.old) (G.halts gate.new) (G.asks gate.old) (G.asks gate.new) steps.old.count steps.new.count }
{
    let body = table.structure().body(thunk);
    let line = body.steps.as_slice();
    let mut trail = trail_of(late);
    run_steps(
        table, runner, descriptor, thunk, line, &mut trail, gate, steps,
    )
}

/// As `run_anew`, whose answer is moved out of a place of its own: else a caller would clear a place for it before each
/// run.
#[inline(always)]
fn run_apart<S: Structure, G: Gate, L>(
    table: &FlockTable<S>,
    runner: Runner<S>,
    descriptor: u32,
    thunk: &Thunk,
    late: bool,
    gate: &mut G,
    steps: &mut Steps<L>,
) -> (Runner<S>, RunEnd)
    requires own { IsOf table.now runner }
    requires opened { StandsOpened (S.meaning table.now.structure) descriptor thunk.now late runner }
    requires reserve { 2 ≤ length runner.part.nodes.free }
    requires blocks { run_blocks ≤ length runner.part.blocks.free }
    ensures own { IsOf table.now result.0 }
    ensures done { EndsOpened (S.meaning table.now.structure) descriptor thunk.now late result.1 runner result.0
        (G.halts gate.old) (G.halts gate.new) (G.asks gate.old) (G.asks gate.new) steps.old.count steps.new.count }
    ensures halted { HaltsOpened (S.meaning table.now.structure) thunk.now result.1 runner result.0
        (G.halts gate.old) (G.halts gate.new) (G.asks gate.old) (G.asks gate.new) steps.old.count steps.new.count }
{
    let (runner, end) = run_anew(table, runner, descriptor, thunk, late, gate, steps);
    (runner, end)
}

/// Goes on with a run that has loaded this thunk, and found its section done or not. In the room that the runner keeps
/// for its runs, the body is refilled with the section's steps and the trail begins anew.
#[inline(always)]
fn run_opened<S: Structure, G: Gate, L>(
    table: &FlockTable<S>,
    mut runner: Runner<S>,
    descriptor: u32,
    thunk: &Thunk,
    late: bool,
    gate: &mut G,
    steps: &mut Steps<L>,
) -> (Runner<S>, RunEnd)
    requires own { IsOf table.now runner }
    requires opened { StandsOpened (S.meaning table.now.structure) descriptor thunk.now late runner }
    requires reserve { 2 ≤ length runner.part.nodes.free }
    requires blocks { run_blocks ≤ length runner.part.blocks.free }
    ensures own { IsOf table.now result.0 }
    ensures done { EndsOpened (S.meaning table.now.structure) descriptor thunk.now late result.1 runner result.0
        (G.halts gate.old) (G.halts gate.new) (G.asks gate.old) (G.asks gate.new) steps.old.count steps.new.count }
    ensures halted { HaltsOpened (S.meaning table.now.structure) thunk.now result.1 runner result.0
        (G.halts gate.old) (G.halts gate.new) (G.asks gate.old) (G.asks gate.new) steps.old.count steps.new.count }
{
    let Some(mut room) = runner.take_room() else {
        return run_apart(table, runner, descriptor, thunk, late, gate, steps);
    };
    let RunRoom { bodies, trail } = &mut *room;
    let body = &mut bodies[(thunk.form % 4) as usize];
    table.structure().body_in(thunk, body);
    trail.restart(late);
    let line = body.steps.as_slice();
    let (mut runner, end) = run_steps(table, runner, descriptor, thunk, line, trail, gate, steps);
    runner.keep_room(room);
    (runner, end)
}

/// As `run_opened`, with the thunk in a place of its own, which is written once: that of the opening would be cleared
/// before it.
#[inline(always)]
fn run_loaded<S: Structure, G: Gate, L>(
    table: &FlockTable<S>,
    runner: Runner<S>,
    descriptor: u32,
    thunk: Thunk,
    late: bool,
    gate: &mut G,
    steps: &mut Steps<L>,
) -> (Runner<S>, RunEnd)
    requires own { IsOf table.now runner }
    requires opened { StandsOpened (S.meaning table.now.structure) descriptor thunk late runner }
    requires reserve { 2 ≤ length runner.part.nodes.free }
    requires blocks { run_blocks ≤ length runner.part.blocks.free }
    ensures own { IsOf table.now result.0 }
    ensures done { EndsOpened (S.meaning table.now.structure) descriptor thunk late result.1 runner result.0
        (G.halts gate.old) (G.halts gate.new) (G.asks gate.old) (G.asks gate.new) steps.old.count steps.new.count }
    ensures halted { HaltsOpened (S.meaning table.now.structure) thunk result.1 runner result.0
        (G.halts gate.old) (G.halts gate.new) (G.asks gate.old) (G.asks gate.new) steps.old.count steps.new.count }
{
    let own = thunk;
    run_opened(table, runner, descriptor, &own, late, gate, steps)
}

/// Runs the section in this descriptor to its end, and asks the gate after each step.
#[inline(always)]
fn run_asked<S: Structure, G: Gate, L>(
    table: &FlockTable<S>,
    runner: Runner<S>,
    descriptor: u32,
    gate: &mut G,
    steps: &mut Steps<L>,
) -> (Runner<S>, RunEnd)
    requires own { IsOf table.now runner }
    requires next { MayBegin (S.meaning table.now.structure) runner descriptor }
    requires reserve { 2 ≤ length runner.part.nodes.free }
    requires blocks { run_blocks ≤ length runner.part.blocks.free }
    ensures own { IsOf table.now result.0 }
    ensures done { (o : Ending) (trail : Agreed) → result.1 ≡ Done o trail → (t : Words) × (made : ℕ)
        × EndsSo (S.meaning table.now.structure) descriptor t o trail made runner result.0 × IsAsked made true
        (G.halts gate.old) (G.halts gate.new) (G.asks gate.old) (G.asks gate.new) steps.old.count steps.new.count }
    ensures halted { result.1 ≡ Halted → (made : ℕ)
        × IsCutShort (S.meaning table.now.structure) descriptor made runner result.0 × IsAsked made false
        (G.halts gate.old) (G.halts gate.new) (G.asks gate.old) (G.asks gate.new) steps.old.count steps.new.count }
{
    let (runner, opened) = open(table, runner, descriptor, gate, steps);
    match opened {
        Some((thunk, late)) => run_loaded(table, runner, descriptor, thunk, late, gate, steps),
        None => (runner, RunEnd::Halted),
    }
}

/// Runs the section in this descriptor to its end, whatever others do: loads its thunk, makes the steps of its body by
/// the words that were agreed on, marks it as done and releases its locks. Answers the outcome and the agreed words,
/// which are the same for each run of the section; the trail says whether the section was done as the run began. Each
/// step is counted, and the gate is asked after it; a gate that says that it never halts any more is told in the end
/// how often.
///
/// The runner has to be entered and in no run, holds the descriptor, and has a reserve of two node slots, and of the
/// blocks of the longest log. It makes at most as many steps as `cost` of the body says, and those of a link for each
/// block that its log needs. `Halted` only where the gate halted. No memory is taken, and nothing waits (Ben-David,
/// Blelloch, Wei, 2022).
#[inline(always)]
pub fn run<S: Structure, G: Gate, L>(
    table: &FlockTable<S>,
    runner: Runner<S>,
    descriptor: u32,
    gate: &mut G,
    steps: &mut Steps<L>,
) -> (Runner<S>, RunEnd)
    requires own { IsOf table.now runner }
    requires next { MayBegin (S.meaning table.now.structure) runner descriptor }
    requires reserve { 2 ≤ length runner.part.nodes.free }
    requires blocks { run_blocks ≤ length runner.part.blocks.free }
    ensures own { IsOf table.now result.0 }
    ensures done { (o : Ending) (trail : Agreed) → result.1 ≡ Done o trail → (t : Words) × (made : ℕ)
        × EndsSo (S.meaning table.now.structure) descriptor t o trail made runner result.0 × IsAsked made true
        (G.halts gate.old) (G.halts gate.new) (G.asks gate.old) (G.asks gate.new) steps.old.count steps.new.count }
    ensures halted { result.1 ≡ Halted → (made : ℕ)
        × IsCutShort (S.meaning table.now.structure) descriptor made runner result.0 × IsAsked made false
        (G.halts gate.old) (G.halts gate.new) (G.asks gate.old) (G.asks gate.new) steps.old.count steps.new.count }
{
    if gate.is_free() {
        let mut made = Steps::<L>::new();
        let (runner, end) = run_asked(table, runner, descriptor, &mut Unasked, &mut made);
        tell(gate, steps, &made);
        (runner, end)
    } else {
        run_asked(table, runner, descriptor, gate, steps)
    }
}
