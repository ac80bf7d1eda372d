//! Runs of sections: the own one, and those that are met in their locks.
ghost use Rattle.std.specs.Prelude.{◌≡◌, ℕ, ◌-◌, true, false};
ghost use Rattle.machine_states.specs.body_terms.specs.Trail.{Agreed};
ghost use Rattle.machine_states.specs.body_terms.specs.Word.{value_of};
ghost use Rattle.machine_states.specs.body_terms.specs.declared.outcome.Outcome.{Outcome};
ghost use Rattle.machine_states.specs.body_terms.specs.declared.thunk.Thunk.{Thunk};
ghost use Rattle.section_runs.specs.commit_log.specs.version_words.specs.TableState.{IsOf};
ghost use Rattle.section_runs.specs.commit_log.specs.Asked.{IsAsked};
ghost use Rattle.section_runs.specs.declared.runs.RunEnd.TheVariants.{Done, Halted};
ghost use Rattle.try_lock.specs.Reached.{MayRunSection, MayHelp};
ghost use Rattle.try_lock.specs.Ends.{EndsSo, IsCutShort};

use crate::section::Section;
use machine_states::body_terms::{Steps, Word};
use machine_states::structure_laws::Structure;
use section_runs::commit_log::version_words::{FlockTable, Runner};
use section_runs::runner_gate::Gate;
use section_runs::{RunEnd, run};

/// Runs the section that this runner published in this entry, whatever others do. Answers the outcome and the agreed
/// words of its log, which are the same for each run of the section; the trail is late where the section was done as
/// the run began.
///
/// The runner is entered and in no run, and has a reserve of two node slots, and of the blocks of the longest log. It
/// makes at most as many atomic steps as `cost` of the body says, and those of a link for each block that its log
/// needs; each is counted, and the gate is asked after it. At `Done` the section is done, and none of
/// its locks is held by it. `Halted` comes only where the gate's count rose. No memory is taken, and nothing waits
/// (Ben-David, Blelloch, Wei, 2022).
pub fn run_section<S: Structure, G: Gate, L>(
    table: &FlockTable<S>,
    runner: Runner<S>,
    section: &Section,
    gate: &mut G,
    steps: &mut Steps<L>,
) -> (Runner<S>, RunEnd)
    requires own { IsOf table.now runner }
    requires next { (t : Thunk) × MayRunSection (S.meaning table.now.structure) runner t section.now }
    ensures own { IsOf table.now result.0 }
    ensures done { (t : Thunk) (o : Outcome) (trail : Agreed)
        → MayRunSection (S.meaning table.now.structure) runner t section.now → result.1 ≡ Done o trail → (made : ℕ)
        × EndsSo (S.meaning table.now.structure) section.now.descriptor t o trail made runner result.0
        × IsAsked made true
        (G.halts gate.old) (G.halts gate.new) (G.asks gate.old) (G.asks gate.new) steps.old.count steps.new.count }
    ensures halted { result.1 ≡ Halted → (made : ℕ)
        × IsCutShort (S.meaning table.now.structure) section.now.descriptor made runner result.0
        × IsAsked made false
        (G.halts gate.old) (G.halts gate.new) (G.asks gate.old) (G.asks gate.new) steps.old.count steps.new.count }
{
    run(table, runner, section.descriptor, gate, steps)
}

/// Helps: runs the section that this lock word names, whatever its publisher and others do, as `run_section` does.
///
/// The runner has watched the lock, which had this word still, so it is sure of the section's descriptor. It is in no
/// run, and has a reserve of two node slots, and of the blocks of the longest log.
pub fn help<S: Structure, G: Gate, L>(
    table: &FlockTable<S>,
    runner: Runner<S>,
    held: Word,
    gate: &mut G,
    steps: &mut Steps<L>,
) -> (Runner<S>, RunEnd)
    requires own { IsOf table.now runner }
    requires next { MayHelp (S.meaning table.now.structure) runner held }
    ensures own { IsOf table.now result.0 }
    ensures done { (o : Outcome) (trail : Agreed) → result.1 ≡ Done o trail → (t : Thunk) × (made : ℕ)
        × EndsSo (S.meaning table.now.structure) (value_of held - 1) t o trail made runner result.0
        × IsAsked made true
        (G.halts gate.old) (G.halts gate.new) (G.asks gate.old) (G.asks gate.new) steps.old.count steps.new.count }
    ensures halted { result.1 ≡ Halted → (made : ℕ)
        × IsCutShort (S.meaning table.now.structure) (value_of held - 1) made runner result.0 × IsAsked made false
        (G.halts gate.old) (G.halts gate.new) (G.asks gate.old) (G.asks gate.new) steps.old.count steps.new.count }
{
    run(table, runner, held.value() - 1, gate, steps)
}
