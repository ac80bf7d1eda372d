//! What a structure offers to those who plan requests on it.
ghost use Rattle.std.specs.Prelude.{◌≡◌, true, Some, IfOk, IfSome, slice_get};
ghost use Rattle.std.specs.FinMap.{entries};
ghost use Rattle.machine_states.specs.map_history.specs.Replay.{Pairs};
ghost use Rattle.machine_states.specs.table_words.specs.Limits.{IsWithinLimits};
ghost use Rattle.machine_states.specs.structure_laws.specs.Planner.{PlannerLaws};
ghost use Rattle.machine_states.specs.structure_laws.specs.Sections.{IsAllowed};
ghost use Rattle.try_lock.specs.commit_log.specs.version_words.specs.TableState.{IsOf};
ghost use Rattle.try_lock.specs.Planning.{Planning};
ghost use Rattle.try_lock.specs.Plans.{MayPlan, HasPlanned};
ghost use Rattle.try_lock.specs.Contents.{StandFor, NamesNone};
ghost use Rattle.lock_walks.specs.Way.{Leads};
ghost use Rattle.lock_walks.specs.Steady.{IsSteady};
ghost use Rattle.lock_walks.specs.Retires.{RetiresFew};
ghost use Rattle.lock_walks.specs.Gets.{GetsAreLight};
ghost use Rattle.lock_walks.specs.Glances.{glanced};

use crate::glance::Glance;
use crate::plans::plan_by;
use crate::walker::Walker;
use machine_states::body_terms::{Steps, Thunk};
use machine_states::map_history::{Op, Request};
use machine_states::structure_laws::Structure;
use machine_states::table_words::Layout;
use std::alloc::{AllocError, Global};
use try_lock::Planned;
use try_lock::commit_log::version_words::{FlockTable, Runner, Words};
use try_lock::section_runs::runner_gate::Gate;

/// A map over cells and node slots, on which requests are planned.
///
/// `planning` is what its walks mean, beside what `meaning` says of a structure.
pub trait Planner: Structure + Sized + Send + Sync {
    /// Its walks.
    type Walk: Walker;

    ghost planning: { Self → Planning };

    /// Whether it serves this operation.
    fn serves(&self, op: Op) -> bool
        ensures { result ≡ (planning self.now).serves op };

    /// The walk of an operation that it serves, which has loaded nothing. It leads a plan as the
    /// structure plans.
    fn walk(&self, layout: Layout, op: Op) -> Self::Walk
        requires limits { IsWithinLimits layout }
        requires allowed { IsAllowed op }
        requires served { (planning self.now).serves op ≡ true }
        ensures op { Self.Walk.way.op result ≡ op }
        ensures planning { Self.Walk.way.planning result ≡ planning self.now }
        ensures leads { Leads Self.Walk.way (Self.meaning self.now) layout result };

    /// What the body of this thunk does, where it looks at one cell or two and the structure tells which without
    /// writing its steps down. This serves speed alone: a read needs no more of such a body. A structure may always
    /// answer None.
    #[inline(always)]
    fn glance(&self, thunk: &Thunk) -> Option<Glance>
        ensures { IfSome result (λ g. glanced g ≡ (Self.meaning self.now).body thunk.now) }
    {
        let _ = thunk;
        None
    }

    /// Plans a request: walks without a lock to the key's place, loads the locks that a section needs, and
    /// answers the thunk of the request's section.
    ///
    /// The structure is the table's, the runner is entered, in no run and has made no load of a cell since
    /// it entered, and the request is one of the table's, which the structure serves. The gate is asked
    /// after each load. The first reading that refuses decides: Busy comes exactly where a lock's word
    /// names a descriptor, Spent exactly where it is free and spent, Stale exactly where a reached node's
    /// mark is 1, Far exactly where as many links were loaded as there are node slots, and eight more, and
    /// the walk isn't at its end. Halted comes exactly where the gate halted, which its count of halts
    /// shows. Else the thunk fits the readings, which are of this call. No memory is taken (Ben-David,
    /// Blelloch, Wei, *Lock-free locks revisited*, 2022).
    #[inline(always)]
    final fn plan<G: Gate, L>(
        &self,
        table: &FlockTable<Self>,
        runner: Runner<Self>,
        request: &Request,
        gate: &mut G,
        steps: &mut Steps<L>,
    ) -> (Runner<Self>, Planned)
        requires own { IsOf table.now runner }
        requires structure { self.now ≡ table.now.structure }
        requires entered { MayPlan runner }
        requires request { slice_get table.now.requests request.now.number ≡ Some request.now }
        requires served { (planning self.now).serves request.now.op ≡ true }
        ensures own { IsOf table.now result.0 }
        ensures plans { HasPlanned (Self.meaning self.now) (planning self.now) request.now result.1 runner result.0
            (G.halts gate.old) (G.halts gate.new) (G.asks gate.old) (G.asks gate.new) steps.old.count
            steps.new.count }
    {
        let walk = self.walk(table.layout(), request.op);
        plan_by(table, runner, request, walk, gate, steps)
    }

    /// The pairs of a closed table's words, in order of key, each once.
    ///
    /// The structure is the words' own, their cells stand for a map by it, and no lock among them names a
    /// descriptor. The Err is want of memory.
    fn contents(&self, alloc: Global, words: &Words<Self>) -> Result<Vec<(u32, u32)>, AllocError>
        requires structure { self.now ≡ words.now.structure }
        requires stand { (pairs : Pairs) × StandFor (Self.meaning self.now) words.now pairs }
        requires closed { NamesNone (Self.meaning self.now) words.now }
        ensures contents { IfOk result (λ items. (pairs : Pairs)
            → StandFor (Self.meaning self.now) words.now pairs → items.items ≡ entries pairs) };

    /// It serves a map, what its thunks expect was read, its Makes are for new pairs, and each pair keeps
    /// few slots in use.
    ghost plans_lawfully: { (s : Self) → PlannerLaws (Self.meaning s) (planning s).per_pair };

    /// A walk that reads what stands, while no section is open, reads no mark of 1 and isn't too far:
    /// nothing but a lock's word refuses it.
    ghost walks_steadily: { (s : Self) → IsSteady (Self.meaning s) (planning s) };

    /// A section retires two slots at most.
    ghost retires_few: { (s : Self) → RetiresFew (Self.meaning s) };

    /// The body of a `get` changes nothing, and its walk is short.
    ghost gets_are_light: { (s : Self) → GetsAreLight (Self.meaning s) (planning s) };
}
