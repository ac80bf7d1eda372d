//! Steps on guard words: a runner moves its own, and reads all of them in a sweep.
ghost use Rattle.std.specs.Prelude.{◌≡◌, ℕ};
ghost use Rattle.machine_states.specs.runner_parts.specs.declared.event.EventKind.TheVariants as kinds;
ghost use Rattle.machine_states.specs.guard_core.specs.State.{word_of};
ghost use Rattle.version_words.specs.TableState.{IsOf};
ghost use Rattle.version_words.specs.Events.{IsEnabled, Makes};

use crate::plays;
use crate::runner::Runner;
use crate::table::FlockTable;
use machine_states::structure_laws::Structure;
use machine_states::table_words::Spot;

/// The word by which a guard names this descriptor, or none.
fn guard_word(descriptor: Option<u32>) -> u64
    ensures { result ≡ word_of descriptor }
{
    match descriptor {
        Some(descriptor) => descriptor as u64 + 1,
        None => 0,
    }
}

impl<S: Structure> FlockTable<S> {
    /// The own guard word names this descriptor from now on, or none where none is given: nobody gives the descriptor
    /// out while the word names it, once the runner has seen it published behind this step.
    pub fn guard(&self, mut runner: Runner<S>, descriptor: Option<u32>) -> Runner<S>
        requires own { IsOf self.now runner }
        requires next { IsEnabled (S.meaning self.now.structure) (kinds.Guard descriptor) runner }
        ensures own { IsOf self.now result }
        ensures event { (found : ℕ)
            → Makes (S.meaning self.now.structure) (kinds.Guard descriptor) found runner result }
    {
        let spot = Spot::Guard(runner.number);
        let word = guard_word(descriptor);
        self.store::<plays::Guard>(&mut runner.seat, spot, word);
        runner.kept.lists.guard(descriptor);
        runner
    }

    /// The next guard word of a sweep. After the last one, the keeper's, the sweep is over: the own retired descriptors
    /// that none of its words names go to the free list.
    pub fn load_guard(&self, mut runner: Runner<S>, guard: u32) -> (Runner<S>, u64)
        requires own { IsOf self.now runner }
        requires next { IsEnabled (S.meaning self.now.structure) (kinds.LoadGuard guard) runner }
        ensures own { IsOf self.now result.0 }
        ensures event { Makes (S.meaning self.now.structure) (kinds.LoadGuard guard) result.1 runner result.0 }
    {
        let found = self.load::<plays::LoadGuard>(&mut runner.seat, Spot::Guard(guard));
        runner.kept.lists.load_guard(self.setup.layout, found);
        (runner, found)
    }
}
