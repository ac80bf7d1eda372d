//! Runs of a section by its publisher and by another worker.
ghost use Rattle.std.specs.Prelude.{◌≡◌, ◌<◌, ℕ, true, Some};
ghost use Rattle.machine_states.specs.body_terms.specs.Trail.{Agreed};
ghost use Rattle.machine_states.specs.body_terms.specs.declared.outcome.Outcome.{Outcome as Ending};
ghost use Rattle.hash_table.specs.try_lock.specs.section_runs.specs.declared.runs.RunEnd.TheVariants.{Done};
ghost use Rattle.hash_table.specs.try_lock.specs.epoch_slots.specs.Collects.{IsTidy};
ghost use Rattle.hash_table.specs.try_lock.specs.Reached.{MayHelp};
ghost use Rattle.settled_tables.specs.closed_words.specs.version_words.specs.TableState.{IsOf};
ghost use Rattle.lock_tests.specs.Workers.{IsReady, HasRead, MayRun, MayRunFor};
ghost use Rattle.lock_tests.specs.Asked.{KnowsOthers};

use hash_table::lock_walks::epoch_slots::{enter, exit};
use hash_table::lock_walks::section_runs::RunEnd;
use hash_table::lock_walks::try_lock::{Section, help, run_section, watch};
use hash_table::lock_walks::version_words::{FlockTable, Runner};
use machine_states::body_terms::{Place, Steps, Word};
use machine_states::structure_laws::Structure;
use settled_tables::settling::runner_gate::Gate;
use std::alloc::{AllocError, Global};

/// How a run of a section ended, and how many steps it made.
#[derive(Drop, Debug)]
pub struct Turn {
    pub end: RunEnd,
    pub steps: u64,
}

impl Turn {
    /// The run as a text: how many steps it made, how it ended and with which trail, and whether it was late.
    pub fn shown(&self, alloc: Global) -> Result<String, AllocError> {
        let steps = self.steps;
        match &self.end {
            RunEnd::Done(outcome, trail) => {
                let words = trail.words.as_slice();
                let late = if trail.late { ", late" } else { "" };
                format!(in alloc; "{steps:?} {outcome:?} {words:?}{late}")
            }
            RunEnd::Halted => format!(in alloc; "{steps:?} Halted"),
        }
    }
}

/// Enters, and reads the lock.
pub fn read_lock<S: Structure>(
    table: &FlockTable<S>,
    runner: Runner<S>,
    place: Place,
) -> (Runner<S>, Word)
    requires own { IsOf table.now runner }
    requires ready { (number : ℕ) × IsReady number runner }
    requires fixed { place < (S.meaning table.now.structure).fixed_cells }
    requires lock { (S.meaning table.now.structure).is_lock place ≡ true }
    ensures own { IsOf table.now result.0 }
    ensures number { result.0.number ≡ runner.number }
    ensures read { HasRead (S.meaning table.now.structure) place result.1 result.0 }
{
    let runner = enter(table, runner);
    table.load_cell(runner, place)
}

/// Enters, reads the lock, and watches it. The word by which the lock names a section, where it had the same word at
/// the second load: then the worker may help that section. Else none.
pub fn watch_lock<S: Structure>(
    table: &FlockTable<S>,
    runner: Runner<S>,
    place: Place,
) -> (Runner<S>, Option<Word>)
    requires own { IsOf table.now runner }
    requires ready { (number : ℕ) × IsReady number runner }
    requires fixed { place < (S.meaning table.now.structure).fixed_cells }
    requires lock { (S.meaning table.now.structure).is_lock place ≡ true }
    ensures own { IsOf table.now result.0 }
    ensures number { result.0.number ≡ runner.number }
    ensures help { (word : ℕ) → result.1 ≡ Some word → MayHelp (S.meaning table.now.structure) result.0 word }
{
    let (runner, held) = read_lock(table, runner, place);
    if held.value() == 0 {
        return (runner, None);
    }
    let (runner, same) = watch(table, runner, place, held);
    if !same {
        return (runner, None);
    }
    (runner, Some(held))
}

/// Runs the own section. Where it came to its end, the worker lets its guard go, and leaves.
pub fn run_own<S: Structure, G: Gate>(
    table: &FlockTable<S>,
    runner: Runner<S>,
    section: Section,
    gate: &mut G,
) -> (Runner<S>, Turn)
    requires own { IsOf table.now runner }
    requires next { MayRun (S.meaning table.now.structure) section runner }
    ensures own { IsOf table.now result.0 }
    ensures number { result.0.number ≡ runner.number }
    ensures tidy { (outcome : Ending) (trail : Agreed) → result.1.end ≡ Done outcome trail → IsTidy result.0 }
    ensures learns { (outcome : Ending) (trail : Agreed) → result.1.end ≡ Done outcome trail → (number : ℕ)
        → MayRunFor (S.meaning table.now.structure) number section runner
        → KnowsOthers number runner.part.records.known result.0.part.records.known }
{
    let mut steps = Steps::<()>::new();
    let (runner, end) = run_section(table, runner, &section, gate, &mut steps);
    let steps = steps.count;
    match end {
        RunEnd::Done(outcome, trail) => {
            let runner = table.guard(runner, None);
            let runner = exit(table, runner);
            let end = RunEnd::Done(outcome, trail);
            (runner, Turn { end, steps })
        }
        RunEnd::Halted => (runner, Turn { end, steps }),
    }
}

/// Helps the section that this word of a lock names, which the worker has watched, and stays entered. Behind the watch
/// the section may have come to its end: then the help is late.
pub fn help_held<S: Structure, G: Gate>(
    table: &FlockTable<S>,
    runner: Runner<S>,
    held: Word,
    gate: &mut G,
) -> (Runner<S>, Turn)
    requires own { IsOf table.now runner }
    requires watched { MayHelp (S.meaning table.now.structure) runner held }
    ensures own { IsOf table.now result.0 }
    ensures number { result.0.number ≡ runner.number }
{
    let mut steps = Steps::<()>::new();
    let (runner, end) = help(table, runner, held, gate, &mut steps);
    let steps = steps.count;
    (runner, Turn { end, steps })
}
