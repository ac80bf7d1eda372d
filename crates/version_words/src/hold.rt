//! The step that publishes a section.
ghost use Rattle.std.specs.Prelude.{◌≡◌, ◌==◌};
ghost use Rattle.machine_states.specs.runner_parts.specs.declared.event.EventKind.TheVariants as kinds;
ghost use Rattle.version_words.specs.TableState.{IsOf};
ghost use Rattle.version_words.specs.Events.{IsEnabled, Makes};

use crate::plays;
use crate::runner::Runner;
use crate::table::FlockTable;
use machine_states::body_terms::{Thunk, Word};
use machine_states::runner_steps::held_word;
use machine_states::structure_laws::Structure;
use machine_states::table_words::Spot;

impl<S: Structure> FlockTable<S> {
    /// The thunk's lock goes from the free word that was read to the one that names this descriptor, if it still holds
    /// the free word. The own guard word names the descriptor before. The answer is the word found, and whether the
    /// section is published.
    pub fn hold(
        &self,
        mut runner: Runner<S>,
        thunk: &Thunk,
        descriptor: u32,
    ) -> (Runner<S>, Word, bool)
        requires own { IsOf self.now runner }
        requires next { IsEnabled (S.meaning self.now.structure) (kinds.Hold thunk.now descriptor) runner }
        ensures own { IsOf self.now result.0 }
        ensures event { Makes (S.meaning self.now.structure) (kinds.Hold thunk.now descriptor)
            result.1 runner result.0 }
        ensures published { result.2 ≡ (result.1 == thunk.now.word) }
    {
        let _ = &self.setup;
        let free = thunk.word;
        let spot = Spot::Cell(thunk.lock);
        let held = held_word(descriptor, free);
        let found = self.exchange_with::<plays::Hold>(
            &mut runner.seat,
            spot,
            free.bits(),
            held.bits(),
            thunk,
        );
        let published = found == free.bits();
        runner.kept.lists.hold(descriptor, published);
        (runner, Word::from_bits(found), published)
    }
}
