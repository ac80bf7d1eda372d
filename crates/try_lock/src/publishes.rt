//! The publication of a section.
ghost use Rattle.std.specs.Prelude.{◌≡◌, ◌+◌, ◌<◌, ◌≤◌, length, replicate};
ghost use Rattle.machine_states.specs.table_words.specs.Places.{slot_count, part_words, descriptor_words};
ghost use Rattle.section_runs.specs.commit_log.specs.version_words.specs.TableState.{IsOf};
ghost use Rattle.section_runs.specs.commit_log.specs.version_words.specs.Events.{start_of};
ghost use Rattle.try_lock.specs.Prepares.{MaySet, SetsWord, HasSet, IsReady};
ghost use Rattle.try_lock.specs.Publishes.{MayPublish, Publishes};

use crate::section::Section;
use machine_states::body_terms::{Refused, Thunk};
use machine_states::runner_parts::thunk_words;
use machine_states::structure_laws::Structure;
use machine_states::table_words::PART_WORDS;
use section_runs::commit_log::version_words::{FlockTable, Runner, held_word};
use section_runs::nested_lock::refused;

/// This word of an own free descriptor, whose words begin at this start, becomes this number: it is loaded, and stored
/// where another number stands.
#[inline(always)]
fn set_word<S: Structure>(
    table: &FlockTable<S>,
    runner: Runner<S>,
    descriptor: u32,
    start: usize,
    word: u32,
    number: u64,
) -> Runner<S>
    requires own { IsOf table.now runner }
    requires free { MaySet runner descriptor }
    requires start { start ≡ start_of (S.meaning table.now.structure) table.now descriptor }
    requires word { word < descriptor_words }
    ensures own { IsOf table.now result }
    ensures set { SetsWord (S.meaning table.now.structure)
        (slot_count runner.layout (S.meaning table.now.structure).fixed_slots + descriptor) word number runner
        result }
{
    let (runner, found) = table.descriptor_load(runner, descriptor, start, word);
    if found == number {
        runner
    } else {
        table.descriptor_store(runner, descriptor, start, word, number)
    }
}

/// The words of an own free descriptor from this one on become these numbers, one after the other.
#[inline(always)]
fn set_words<S: Structure>(
    table: &FlockTable<S>,
    runner: Runner<S>,
    descriptor: u32,
    start: usize,
    first: u32,
    numbers: &[u64],
) -> Runner<S>
    requires own { IsOf table.now runner }
    requires free { MaySet runner descriptor }
    requires start { start ≡ start_of (S.meaning table.now.structure) table.now descriptor }
    requires few { first + length numbers.now ≤ descriptor_words }
    ensures own { IsOf table.now result }
    ensures set { HasSet (S.meaning table.now.structure) descriptor first numbers.now runner result }
{
    let mut runner = runner;
    for i in 0..numbers.len() {
        let word = first + i as u32;
        runner = set_word(table, runner, descriptor, start, word, numbers[i]);
    }
    runner
}

/// The done word of an own free descriptor, the words of its log's first part and its link become 0.
#[inline(always)]
fn clear_words<S: Structure>(
    table: &FlockTable<S>,
    runner: Runner<S>,
    descriptor: u32,
    start: usize,
) -> Runner<S>
    requires own { IsOf table.now runner }
    requires free { MaySet runner descriptor }
    requires start { start ≡ start_of (S.meaning table.now.structure) table.now descriptor }
    ensures own { IsOf table.now result }
    ensures set { HasSet (S.meaning table.now.structure) descriptor 12 (replicate (part_words + 2) 0) runner result }
{
    set_words(table, runner, descriptor, start, 12, &[0; PART_WORDS + 2])
}

/// The words of an own free descriptor become those of a section with this thunk that no run has begun: the
/// thunk's, no done, an empty log, no link.
#[inline(always)]
fn prepare<S: Structure>(
    table: &FlockTable<S>,
    runner: Runner<S>,
    descriptor: u32,
    thunk: &Thunk,
) -> Runner<S>
    requires own { IsOf table.now runner }
    requires free { MaySet runner descriptor }
    ensures own { IsOf table.now result }
    ensures ready { IsReady (S.meaning table.now.structure) descriptor thunk.now runner result }
{
    let start = table.descriptor_start(descriptor);
    let runner = set_words(table, runner, descriptor, start, 0, &thunk_words(thunk));
    clear_words(table, runner, descriptor, start)
}

/// A thunk has eight operands, by its type.
fn has_eight_operands(thunk: &Thunk)
    ensures { length thunk.now.operands ≡ 8 }
{
    let operands: &[u64] = &thunk.operands;
    let _ = operands.len();
}

/// Publishes a section with this thunk: writes the thunk into an own free descriptor, with no done, an empty log and
/// no link, stores the own guard word to name it, and makes one exchange of the thunk's outer lock, from the free word that
/// was read to the one that names the descriptor. A word of the descriptor that is right already isn't written.
///
/// The runner has to be entered and in no run, without a section that it hasn't retired, and have a reserve of one
/// descriptor. The thunk's outer word has to be free and not spent, and read in this entry. The thunk's request has
/// to be the worker's own, not answered to it, each earlier request of its trace answered, and the thunk has to fit
/// the request and what the runner has read.
///
/// The answer is Ok exactly where the exchange won. Else it names the word that the exchange saw: Busy where that
/// names a descriptor, Spent where it is free and has too few versions left to be taken and released, Stale
/// otherwise; the descriptor is still free, and the guard word names it. No memory is taken (Ben-David, Blelloch, Wei,
/// 2022).
pub fn publish<S: Structure>(
    table: &FlockTable<S>,
    runner: Runner<S>,
    thunk: &Thunk,
) -> (Runner<S>, Result<Section, Refused>)
    requires own { IsOf table.now runner }
    requires publishable { MayPublish (S.meaning table.now.structure) runner thunk.now }
    ensures own { IsOf table.now result.0 }
    ensures publishes { Publishes (S.meaning table.now.structure) thunk.now result.1 runner result.0 }
{
    has_eight_operands(thunk);
    let free = runner.free_descriptors();
    let descriptor = free[free.len() - 1];
    let runner = prepare(table, runner, descriptor, thunk);
    let runner = table.guard(runner, Some(descriptor));
    let (runner, read, won) = table.hold(runner, thunk, descriptor);
    if won {
        let held = held_word(descriptor, thunk.word);
        let section = Section {
            descriptor,
            place: thunk.lock,
            held,
        };
        (runner, Ok(section))
    } else {
        let refusal = refused(table.layout().version_max, thunk.word, read);
        (runner, Err(refusal))
    }
}
