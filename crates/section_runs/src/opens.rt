//! The opening of a run.
ghost use Rattle.std.specs.Prelude.{◌≡◌, ◌≤◌, take, cond, length, IfSome, IfNone, true, false};
ghost use Rattle.idem_cell.specs.machine_states.specs.runner_steps.specs.Sections.{thunk_of};
ghost use Rattle.idem_alloc.specs.commit_log.specs.version_words.specs.TableState.{IsOf};
ghost use Rattle.idem_alloc.specs.commit_log.specs.Asked.{IsAsked};
ghost use Rattle.section_runs.specs.Reached.{MayBegin};
ghost use Rattle.section_runs.specs.Opened.{IsOpening, HasOpened, HasHalted};

use crate::sums::add_up;
use idem_alloc::commit_log::passes;
use idem_alloc::commit_log::version_words::{FlockTable, Runner};
use idem_cell::body_terms::{StepKind, Steps, Thunk, Word};
use idem_cell::runner_gate::Gate;
use idem_cell::section_lines::structure_laws::Structure;

/// The thunk that these words hold.
fn thunk_from(words: &[u64]) -> Thunk
    requires { 12 ≤ length words.now }
    ensures { result ≡ thunk_of words.now }
{
    Thunk {
        form: words[0],
        request: Word::from_bits(words[1]).value(),
        lock: Word::from_bits(words[2]).value(),
        word: Word::from_bits(words[3]),
        operands: [
            words[4], words[5], words[6], words[7], words[8], words[9], words[10], words[11],
        ],
    }
}

/// The done word of a section that is done or isn't.
fn done_word(done: bool) -> u64
    ensures { result ≡ cond done 1 0 }
{
    if done { 1 } else { 0 }
}

/// Loads the twelve thunk words of the descriptor, with which a run begins, and puts them into the first twelve of
/// these words. Each step is counted, and the gate is asked after it: whether it let the runner go on.
fn load_words<S: Structure, G: Gate, L>(
    table: &FlockTable<S>,
    runner: Runner<S>,
    descriptor: u32,
    words: &mut [u64],
    gate: &mut G,
    steps: &mut Steps<L>,
) -> (Runner<S>, bool)
    requires own { IsOf table.now runner }
    requires next { MayBegin (S.meaning table.now.structure) runner descriptor }
    requires room { length words.old ≡ 13 }
    ensures own { IsOf table.now result.0 }
    ensures room { length words.new ≡ 13 }
    ensures opening { result.1 ≡ true
        → IsOpening (S.meaning table.now.structure) 12 descriptor (take 12 words.new) runner result.0 }
    ensures asked { result.1 ≡ true → IsAsked 12 true
        (G.halts gate.old) (G.halts gate.new) (G.asks gate.old) (G.asks gate.new) steps.old.count steps.new.count }
    ensures halted { result.1 ≡ false → HasHalted (S.meaning table.now.structure) 12 descriptor runner result.0
        (G.halts gate.old) (G.halts gate.new) (G.asks gate.old) (G.asks gate.new) steps.old.count steps.new.count }
{
    let start = table.descriptor_start(descriptor);
    let mut runner = runner;
    let mut made = Steps::<L>::new();
    for index in 0..12u32 {
        let (opened, word) = table.load_thunk(runner, descriptor, start, index);
        runner = opened;
        words[index as usize] = word;
        if !passes(gate, &mut made, StepKind::Opening) {
            add_up(steps, &made);
            return (runner, false);
        }
    }
    add_up(steps, &made);
    (runner, true)
}

/// Opens a run of the section in this descriptor, in thirteen steps: loads its thunk's words and its done word. Answers
/// the thunk, and whether the section was done. Each step is counted, and the gate is asked after it: None where it
/// halted the runner.
///
/// The runner has to be entered and in no run, and holds the descriptor. There is no refusal, and no memory is taken
/// (Ben-David, Blelloch, Wei, 2022).
pub fn open<S: Structure, G: Gate, L>(
    table: &FlockTable<S>,
    runner: Runner<S>,
    descriptor: u32,
    gate: &mut G,
    steps: &mut Steps<L>,
) -> (Runner<S>, Option<(Thunk, bool)>)
    requires own { IsOf table.now runner }
    requires next { MayBegin (S.meaning table.now.structure) runner descriptor }
    ensures own { IsOf table.now result.0 }
    ensures opened { IfSome result.1
        (λ found. HasOpened (S.meaning table.now.structure) descriptor found.0 found.1 runner result.0) }
    ensures asked { IfSome result.1 (λ found. IsAsked 13 true
        (G.halts gate.old) (G.halts gate.new) (G.asks gate.old) (G.asks gate.new) steps.old.count steps.new.count) }
    ensures halted { IfNone result.1 (HasHalted (S.meaning table.now.structure) 13 descriptor runner result.0
        (G.halts gate.old) (G.halts gate.new) (G.asks gate.old) (G.asks gate.new) steps.old.count steps.new.count) }
{
    let mut words = [0; 13];
    let (runner, going) = load_words(table, runner, descriptor, &mut words, gate, steps);
    if !going {
        return (runner, None);
    }
    let (runner, done) = table.load_done(runner);
    if !passes(gate, steps, StepKind::Opening) {
        return (runner, None);
    }
    words[12] = done_word(done);
    let thunk = thunk_from(&words);
    (runner, Some((thunk, done)))
}
