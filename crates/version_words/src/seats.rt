//! How runners are made and joined, and how a table begins and ends.
ghost use Rattle.std.specs.Prelude.{◌≡◌, ◌≤◌, ◌<◌, [], IfOk, IfErr, length, All};
ghost use Rattle.machine_states.specs.map_history.specs.declared.op.Request.{Request};
ghost use Rattle.machine_states.specs.map_history.specs.Requests.{AreInOrder};
ghost use Rattle.machine_states.specs.table_words.specs.Limits.{IsWithinLimits};
ghost use Rattle.machine_states.specs.table_words.specs.Places.{slot_count};
ghost use Rattle.machine_states.specs.runner_parts.specs.declared.event.EventKind.TheVariants as kinds;
ghost use Rattle.machine_states.specs.First.{keeper_part, worker_part};
ghost use Rattle.runner_block.specs.Marks.{marks_of};
ghost use Rattle.runner_block.specs.Places.{IsAtRest};
ghost use Rattle.version_words.specs.RunnerState.{told_part};
ghost use Rattle.version_words.specs.Kept.{KeepsBlocks};
ghost use Rattle.version_words.specs.TableState.{IsOf, IsNew, HasSmallValue, first_keeper, HasJoinedAll, IsClosing};
ghost use Rattle.version_words.specs.Events.{IsEnabled, HasSplit, next_worker, joined_by};

use crate::bases::Bases;
use crate::plays::{Joins, SplitsOff};
use crate::rule::Setup;
use crate::runner::Runner;
use crate::table::FlockTable;
use crate::words::Words;
use atomic_table::Table;
use machine_states::first_words;
use machine_states::map_history::{Op, Request};
use machine_states::runner_steps::{blocks_from, sizes_for, slot_count};
use machine_states::structure_laws::Structure;
use machine_states::table_words::Layout;
use runner_block::{Block, Kept, RunPlace, Share};
use std::alloc::{AllocError, Global};

/// A block with these lists, for a runner in no run.
fn boxed(alloc: Global, lists: Kept) -> Result<Box<Block, Global>, AllocError>
    ensures lists { IfOk result (λ b. b.value.lists ≡ lists) }
    ensures place { IfOk result (λ b. IsAtRest b.value.place) }
{
    let place = RunPlace {
        descriptor: 0,
        request: 0,
        lock: 0,
        agreed: 0,
        epoch: 0,
        inside: false,
        making: false,
        worn: false,
    };
    Ok(Box::new(alloc, Block { lists, place })?)
}

/// The keeper's lists: its node slots, descriptors and blocks come after the workers'.
fn keeper_lists<S: Structure>(
    alloc: Global,
    structure: &S,
    layout: Layout,
) -> Result<Box<Block, Global>, AllocError>
    requires { IsWithinLimits layout }
    ensures lists { IfOk result (λ b. b.value.lists.part ≡ told_part (keeper_part (S.meaning structure.now) layout)) }
    ensures marks { IfOk result (λ b. b.value.lists.marks ≡ marks_of []) }
    ensures blocks { IfOk result (λ b. KeepsBlocks b.value.lists (keeper_part (S.meaning structure.now) layout)) }
    ensures room { IfOk result (λ b. b.value.lists.room ≡ slot_count layout (S.meaning structure.now).fixed_slots) }
    ensures place { IfOk result (λ b. IsAtRest b.value.place) }
{
    let workers = layout.runners;
    let nodes = Share {
        first: structure.fixed_slots() + layout.nodes * workers,
        count: 2 * workers + 2,
        room: slot_count(structure, layout),
    };
    let descriptors = Share {
        first: layout.sections * workers,
        count: workers,
        room: layout.sections * workers + workers,
    };
    let before = layout.worker_blocks() * workers;
    let lists = Kept::new(alloc, nodes, descriptors, before, layout.keeper_blocks())?;
    boxed(alloc, lists)
}

/// The lists of this worker.
#[tactic(auto, using(machine_states::proofs::Firsts::nodes_below, machine_states::proofs::Firsts::sections_below, machine_states::proofs::Firsts::blocks_below))]
fn worker_lists<S: Structure>(
    alloc: Global,
    structure: &S,
    layout: Layout,
    worker: u32,
) -> Result<Box<Block, Global>, AllocError>
    requires limits { IsWithinLimits layout }
    requires worker { worker < layout.runners }
    ensures lists { IfOk result
        (λ b. b.value.lists.part ≡ told_part (worker_part (S.meaning structure.now) layout worker)) }
    ensures marks { IfOk result (λ b. b.value.lists.marks ≡ marks_of []) }
    ensures blocks { IfOk result (λ b. KeepsBlocks b.value.lists (worker_part (S.meaning structure.now) layout worker)) }
    ensures room { IfOk result (λ b. b.value.lists.room ≡ slot_count layout (S.meaning structure.now).fixed_slots) }
    ensures place { IfOk result (λ b. IsAtRest b.value.place) }
{
    let nodes = Share {
        first: structure.fixed_slots() + layout.nodes * worker,
        count: layout.nodes,
        room: slot_count(structure, layout),
    };
    let descriptors = Share {
        first: layout.sections * worker,
        count: layout.sections,
        room: layout.sections * layout.runners + layout.runners,
    };
    let own = layout.worker_blocks();
    let lists = Kept::new(alloc, nodes, descriptors, own * worker, own)?;
    boxed(alloc, lists)
}

/// The value that an operation gives has 32 bits, by its type.
fn value_fits(op: Op)
    ensures { HasSmallValue op }
{
    if let Op::Ins(_, value) | Op::Put(_, value) = op {
        let _ = u64::from(value);
    }
}

/// So it is with each request.
fn values_fit(requests: &[Request])
    ensures { All (λ (request : Request). HasSmallValue request.op) requests.now }
{
    for request in requests {
        value_fits(request.op);
    }
}

impl<S: Structure> FlockTable<S> {
    /// The table in its first state, and the keeper. The requests are numbered from 0 in order, in traces that never
    /// fall along the list and are below 64, with keys up to 4,294,967,293.
    pub fn new(
        alloc: Global,
        structure: S,
        layout: Layout,
        requests: &[Request],
    ) -> Result<(FlockTable<S>, Runner<S>), AllocError>
        requires limits { IsWithinLimits layout }
        requires ordered { AreInOrder requests.now 64 }
        ensures table { IfOk result (λ x. IsNew structure layout requests.now x.0) }
        ensures own { IfOk result (λ x. IsOf x.0 x.1) }
        ensures keeper { IfOk result (λ x. x.1 ≡ first_keeper (S.meaning structure) x.0) }
    {
        values_fit(requests);
        let sizes = sizes_for(&structure, layout, requests);
        let words = first_words(alloc, &structure, sizes)?;
        let node_slots = slot_count(&structure, layout);
        let first_cell = structure.fixed_cells();
        let first_block = blocks_from(&structure, layout);
        let kept = keeper_lists(alloc, &structure, layout)?;
        let requests = Vec::from_slice(alloc, requests)?;
        let setup = Setup {
            structure,
            layout,
            requests,
            sizes: Bases::of(sizes),
            node_slots,
            first_cell,
            first_block,
        };
        let (table, seat) = Table::of_words(alloc, words.as_slice(), &setup)?;
        let keeper = Runner {
            seat,
            number: layout.runners,
            kept,
        };
        Ok((FlockTable { table, setup }, keeper))
    }

    /// The keeper back, and the next worker. Where there is no memory the keeper comes back as it was.
    pub fn runner(
        &self,
        alloc: Global,
        mut keeper: Runner<S>,
    ) -> Result<(Runner<S>, Runner<S>), (Runner<S>, AllocError)>
        requires own { IsOf self.now keeper }
        requires next { IsEnabled (S.meaning self.now.structure) kinds.Split keeper }
        ensures own { IfOk result (λ x. IsOf self.now x.0 × IsOf self.now x.1) }
        ensures event { IfOk result (λ x. HasSplit (S.meaning self.now.structure) keeper x.0) }
        ensures worker { IfOk result (λ x. x.1 ≡ next_worker (S.meaning self.now.structure) keeper) }
        ensures err { IfErr result (λ e. e.0 ≡ keeper) }
    {
        let number = keeper.kept.lists.splits();
        let Ok(kept) = worker_lists(alloc, &self.setup.structure, self.setup.layout, number) else {
            return Err((keeper, AllocError));
        };
        let seat = self
            .table
            .shared
            .split_seat::<SplitsOff<S>>(&mut keeper.seat);
        keeper.kept.lists.split(self.setup.layout);
        let worker = Runner { seat, number, kept };
        Ok((keeper, worker))
    }

    /// The keeper, which knows also what the worker knew, and keeps the worker's part as it stood.
    pub fn join_runner(&self, mut keeper: Runner<S>, worker: Runner<S>) -> Runner<S>
        requires own { IsOf self.now keeper }
        requires worker { IsOf self.now worker }
        requires next { IsEnabled (S.meaning self.now.structure) (kinds.Join worker.number) keeper }
        ensures own { IsOf self.now result }
        ensures event { result ≡ joined_by (S.meaning self.now.structure) worker keeper }
    {
        let Runner {
            seat,
            number: _,
            kept,
        } = worker;
        drop(kept);
        self.table
            .shared
            .join_seat::<Joins<S>>(&mut keeper.seat, seat);
        keeper
    }

    /// The words as they stand.
    pub fn close(self, keeper: Runner<S>) -> Words<S>
        requires own { IsOf self keeper }
        requires joined { HasJoinedAll self keeper }
        ensures { IsClosing (S.meaning self.structure) self keeper result }
    {
        let FlockTable { table, setup } = self;
        let Runner {
            seat,
            number: _,
            kept,
        } = keeper;
        drop(kept);
        let closed = table.close_with(seat);
        Words { closed, setup }
    }

    pub fn structure(&self) -> &S
        ensures { result.now ≡ self.now.structure }
    {
        &self.setup.structure
    }

    pub fn layout(&self) -> Layout
        ensures { result ≡ self.now.layout }
    {
        self.setup.layout
    }

    /// How many node slots the table has. Descriptors are numbered after them, where a call takes a slot of either
    /// kind.
    pub fn node_slots(&self) -> u32
        ensures { result ≡ slot_count self.now.layout (S.meaning self.now.structure).fixed_slots }
    {
        self.setup.node_slots
    }
}
