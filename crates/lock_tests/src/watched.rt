//! Both workers at one section, in turn or on two threads.
ghost use Rattle.std.specs.Prelude.{◌≡◌, ◌<◌, true, IfOk};
ghost use Rattle.settled_tables.specs.closed_words.specs.version_words.specs.TableState.{IsOf};
ghost use Rattle.hash_table.specs.try_lock.specs.Reached.{MayHelp};
ghost use Rattle.hash_table.specs.try_lock.specs.declared.section.Section.{Section as Published};
ghost use Rattle.lock_tests.specs.Workers.{IsReady, MayMeet, MayRun};
ghost use Rattle.lock_tests.specs.declared.offers.Offer.TheVariants as offers;

use crate::offers::Offer;
use crate::turns::{Turn, help_held, run_own, watch_lock};
use crate::workers::Crew;
use hash_table::lock_walks::try_lock::Section;
use hash_table::lock_walks::version_words::{FlockTable, Runner};
use machine_states::body_terms::Word;
use machine_states::structure_laws::Structure;
use settled_tables::settling::runner_gate::{Free, Gate, HaltAt};
use std::alloc::AllocError;
use std::thread;
use std::thread::Threads;

/// Two workers, of whom the first one has published a section, and the second one has watched the lock that names it.
#[derive(Drop)]
pub struct Watched<S: Structure> {
    pub crew: Crew<S>,
    pub section: Section,
    pub held: Word,
}

/// Two workers behind their runs of the first one's section.
#[derive(Drop)]
pub struct Ended<S: Structure> {
    pub crew: Crew<S>,
    pub ran: Turn,
    pub helped: Turn,
}

/// The second worker watches the lock at place 0, which names the section that the first one has published. The Err is
/// a lock or a section that is none of them.
pub fn watch_section<S: Structure>(crew: Crew<S>, offered: Offer) -> Result<Watched<S>, AllocError>
    requires runs { (section : Published) → offered ≡ offers.Published section
        → MayRun (S.meaning crew.table.structure) section crew.first }
    requires ready { IsReady 1 crew.second }
    requires fixed { 0 < (S.meaning crew.table.structure).fixed_cells }
    requires lock { (S.meaning crew.table.structure).is_lock 0 ≡ true }
    ensures table { IfOk result (λ x. x.crew.table ≡ crew.table) }
    ensures meet { IfOk result (λ x. MayMeet (S.meaning x.crew.table.structure) x.section x.held
        x.crew.first x.crew.second) }
{
    let Crew {
        table,
        keeper,
        first,
        second,
    } = crew;
    let Offer::Published(section) = offered else {
        return Err(AllocError);
    };
    let (second, held) = watch_lock(&table, second, 0);
    let Some(held) = held else {
        return Err(AllocError);
    };
    let crew = Crew {
        table,
        keeper,
        first,
        second,
    };
    Ok(Watched {
        crew,
        section,
        held,
    })
}

/// Both at one section, each on a thread of its own: its publisher, and the other one by the word of the lock that it
/// has watched.
fn side_by_side<R: Threads + Sync, S: Structure, G: Gate + Send + Drop>(
    rt: &R,
    table: &FlockTable<S>,
    first: (Runner<S>, Section, G),
    second: (Runner<S>, Word, G),
) -> ((Runner<S>, Turn), (Runner<S>, Turn))
    requires own { IsOf table.now first.0 × IsOf table.now second.0 }
    requires next { MayRun (S.meaning table.now.structure) first.1 first.0 }
    requires watched { MayHelp (S.meaning table.now.structure) second.0 second.1 }
    ensures own { IsOf table.now result.0.0 × IsOf table.now result.1.0 }
    ensures numbers { (result.0.0.number ≡ first.0.number) × (result.1.0.number ≡ second.0.number) }
{
    let (runner, section, gate) = first;
    let (helper, held, other_gate) = second;
    thread::join(
        rt,
        move || -> (Runner<S>, Turn)
            requires { IsOf table.now runner × MayRun (S.meaning table.now.structure) section runner }
            ensures { IsOf table.entry.now result.0 × (result.0.number ≡ runner.number) }
        {
            let mut gate = gate;
            run_own(table, runner, section, &mut gate)
        },
        move || -> (Runner<S>, Turn)
            requires { IsOf table.now helper × MayHelp (S.meaning table.now.structure) helper held }
            ensures { IsOf table.entry.now result.0 × (result.0.number ≡ helper.number) }
        {
            let mut gate = other_gate;
            help_held(table, helper, held, &mut gate)
        },
    )
}

impl<S: Structure> Watched<S> {
    /// The first worker runs the section, and is halted at its ask with this number, if any; after that the second one
    /// helps.
    pub fn in_turn(self, halt: Option<u64>) -> Ended<S>
        requires { MayMeet (S.meaning self.crew.table.structure) self.section self.held self.crew.first
            self.crew.second }
        ensures table { result.crew.table ≡ self.crew.table }
    {
        let Watched {
            crew,
            section,
            held,
        } = self;
        let Crew {
            table,
            keeper,
            first,
            second,
        } = crew;
        let (first, ran) = run_own(&table, first, section, &mut HaltAt::new(halt));
        let (second, helped) = help_held(&table, second, held, &mut Free::new());
        let crew = Crew {
            table,
            keeper,
            first,
            second,
        };
        Ended { crew, ran, helped }
    }

    /// Both are at the section side by side, each on a thread and with its gate.
    pub fn on_threads<R: Threads + Sync, G: Gate + Send + Drop>(
        self,
        rt: &R,
        gates: (G, G),
    ) -> Ended<S>
        requires { MayMeet (S.meaning self.crew.table.structure) self.section self.held self.crew.first
            self.crew.second }
        ensures table { result.crew.table ≡ self.crew.table }
    {
        let Watched {
            crew,
            section,
            held,
        } = self;
        let Crew {
            table,
            keeper,
            first,
            second,
        } = crew;
        let (gate, other) = gates;
        let (first, second) = side_by_side(
            rt,
            &table,
            (first, section, gate),
            (second, held, other),
        );
        let (first, ran) = first;
        let (second, helped) = second;
        let crew = Crew {
            table,
            keeper,
            first,
            second,
        };
        Ended { crew, ran, helped }
    }
}
