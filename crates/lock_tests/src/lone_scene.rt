//! The requests of one trace, served in turn by the only worker of a table of any structure.
ghost use Rattle.std.specs.Prelude.{◌≡◌, IfOk};
ghost use Rattle.machine_states.specs.map_history.specs.Requests.{AreInOrder};
ghost use Rattle.settled_tables.specs.closed_words.specs.version_words.specs.TableState.{IsOf};
ghost use Rattle.settled_tables.specs.closed_words.specs.version_words.specs.Stages.{IsKeeper, HasJoined};
ghost use Rattle.lock_tests.specs.Workers.{IsNewWorker};

use crate::closing::{cell_count, pairs_of};
use crate::courses::{Served, serve_in_turn};
use crate::workers::{gather_one, split};
use hash_table::lock_walks::Planner;
use hash_table::lock_walks::version_words::{FlockTable, Runner};
use machine_states::map_history::Request;
use machine_states::table_words::Layout;
use std::alloc::{AllocError, Global};
use trace_reader::{SureSource, Traces, read_traces};

/// What is left of a row: what came of each request, how many of the worker's node slots are free and how many in
/// limbo, and the pairs of the closed table.
#[derive(Drop)]
pub struct Row {
    served: Vec<Served>,
    free: usize,
    limbo: u32,
    pairs: Vec<(u32, u32)>,
}

impl Row {
    /// As a text: what came of each request, how many node slots are free or in limbo, and the pairs.
    pub fn shown(&self, alloc: Global) -> Result<String, AllocError> {
        let told = told(alloc, self.served.as_slice())?;
        let (slots, pairs) = (self.free.saturating_add(self.limbo as usize), &self.pairs);
        format!(in alloc; "{told}\n{slots:?} slots, {pairs:?}")
    }

    /// The same, and before it how many loads the plan of each request made that was answered.
    pub fn shown_with_loads(&self, alloc: Global) -> Result<String, AllocError> {
        let mut loads = Vec::new(alloc);
        for served in self.served.as_slice() {
            if let Served::Answered(course) = served {
                loads.push(course.loads)?;
            }
        }
        let shown = self.shown(alloc)?;
        format!(in alloc; "{loads:?}\n{shown}")
    }

    /// As a text: the stamp of the last request, if it was answered, and how the run of its section went; and how many
    /// node slots are free, and how many in limbo.
    pub fn last(&self, alloc: Global) -> Result<String, AllocError> {
        let slots = (self.free, self.limbo);
        match self.served.as_slice().last() {
            Some(Served::Answered(course)) => {
                let (stamp, turn) = (course.entry.0, course.turn.shown(alloc)?);
                format!(in alloc; "{stamp:?}: {turn}\n{slots:?}")
            }
            _ => format!(in alloc; "{slots:?}"),
        }
    }
}

/// What came of each of these requests.
fn told(alloc: Global, served: &[Served]) -> Result<String, AllocError> {
    let mut texts = Vec::new(alloc);
    for one in served {
        texts.push(one.shown(alloc)?)?;
    }
    texts.as_slice().join(alloc, ", ")
}

/// The requests of one trace, whose lines these are; or of several, where there are lines that begin another one.
pub fn trace_of(alloc: Global, lines: &str) -> Result<Traces, AllocError>
    ensures { IfOk result (λ traces. AreInOrder traces.requests 64) }
{
    let text = format!(in alloc; "flock 3\ntrace\n{lines}")?;
    let mut source = SureSource::new(text.into_bytes(), Vec::new(alloc));
    match read_traces(alloc, &mut source) {
        Ok(traces) => Ok(traces),
        Err(_) => Err(AllocError),
    }
}

/// A table with these requests, its keeper, and its only worker, which has so many node slots.
fn open<S: Planner>(
    alloc: Global,
    structure: S,
    nodes: u8,
    requests: &[Request],
) -> Result<(FlockTable<S>, Runner<S>, Runner<S>), AllocError>
    requires { AreInOrder requests.now 64 }
    ensures own { IfOk result (λ x. IsOf x.0 x.1 × IsOf x.0 x.2) }
    ensures keeper { IfOk result (λ x. IsKeeper x.1 1 × HasJoined x.1 0) }
    ensures worker { IfOk result (λ x. IsNewWorker 0 x.2) }
    ensures one { IfOk result (λ x. x.0.layout.runners ≡ 1) }
    ensures requests { IfOk result (λ x. x.0.requests ≡ requests.now) }
{
    let layout = Layout {
        runners: 1,
        nodes: u32::from(nodes),
        sections: 4,
        version_max: 4294967295,
    };
    let (table, keeper) = FlockTable::new(alloc, structure, layout, requests)?;
    let (keeper, worker) = split(&table, alloc, keeper, 0)?;
    Ok((table, keeper, worker))
}

/// The pairs of the table once its worker was joined.
fn close<S: Planner>(
    alloc: Global,
    table: FlockTable<S>,
    keeper: Runner<S>,
    worker: Runner<S>,
) -> Result<Vec<(u32, u32)>, AllocError>
    requires own { IsOf table keeper × IsOf table worker }
    requires keeper { IsKeeper keeper 1 × HasJoined keeper 0 }
    requires number { worker.number ≡ 0 }
    requires one { table.layout.runners ≡ 1 }
{
    let cells = cell_count(&table).ok_or(AllocError)?;
    let words = gather_one(table, keeper, worker);
    pairs_of(alloc, &words, cells)
}

/// Serves the requests of a trace, whose lines these are, on a new table of this structure by one worker with so many
/// node slots.
pub fn serve_lines<S: Planner>(
    alloc: Global,
    structure: S,
    nodes: u8,
    lines: &str,
) -> Result<Row, AllocError> {
    let traces = trace_of(alloc, lines)?;
    let requests = traces.requests.as_slice();
    let (table, keeper, worker) = open(alloc, structure, nodes, requests)?;
    let (worker, served) = serve_in_turn(&table, alloc, worker, requests)?;
    let (free, limbo) = (worker.free_nodes().len(), worker.limbo_nodes());
    let pairs = close(alloc, table, keeper, worker)?;
    Ok(Row {
        served,
        free,
        limbo,
        pairs,
    })
}
