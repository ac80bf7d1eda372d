//! The run of all workers, each in a thread of its own.
ghost use Rattle.std.specs.Prelude.{◌≡◌, IfOk, All, vec_len};
ghost use Rattle.threaded_runs.specs.Jobs.{MayRun, HasRun, AllRun};

use crate::job::{Finished, Job};
use free_serving::serve_freely;
use lone_reads::seq_read::lock_walks::Planner;
use machine_states::body_terms::Steps;
use settled_tables::settling::runner_gate::Gate;
use std::alloc::AllocError;
use std::sync::Wait;
use std::thread;
use std::thread::Threads;
use version_words::FlockTable;

/// Serves a worker's requests.
fn run_job<R: Threads + Wait + Sync, S: Planner, G: Gate>(
    rt: &R,
    table: &FlockTable<S>,
    retry_short: bool,
    reads_free: bool,
    job: Job<S, G>,
) -> Finished<S, G>
    requires { MayRun (S.planning table.now.structure) table.now job }
    ensures { HasRun (S.meaning table.now.structure) (S.planning table.now.structure) retry_short reads_free
        G.halts G.asks table.now job result }
{
    let Job {
        runner,
        mut gate,
        requests,
    } = job;
    let mut steps = Steps::<()>::new();
    let (runner, answer) = serve_freely(
        rt,
        table,
        runner,
        requests.as_slice(),
        retry_short,
        reads_free,
        &mut gate,
        &mut steps,
    );
    Finished {
        runner,
        gate,
        answer,
    }
}

/// Runs each job in a thread of its own where one can be made; the caller does the work of the others.
///
/// The Err is want of memory.
pub fn run_jobs<R: Threads + Wait + Sync, S: Planner, G: Gate + Send + Drop>(
    rt: &R,
    table: &FlockTable<S>,
    retry_short: bool,
    reads_free: bool,
    jobs: Vec<Job<S, G>>,
) -> Result<Vec<Finished<S, G>>, AllocError>
where
    S::Walk: Send + Sync,
    requires { All (MayRun (S.planning table.now.structure) table.now) jobs.items }
    ensures len { IfOk result (λ finished. vec_len finished ≡ vec_len jobs) }
    ensures each { IfOk result (λ finished. AllRun (S.meaning table.now.structure) (S.planning table.now.structure)
        retry_short reads_free G.halts G.asks table.now jobs.items finished.items) }
{
    let run = |job: Job<S, G>| -> Finished<S, G>
        requires { MayRun (S.planning table.now.structure) table.now job }
        ensures { HasRun (S.meaning table.entry.now.structure) (S.planning table.entry.now.structure) retry_short
            reads_free G.halts G.asks table.entry.now job result }
    { run_job(rt, table, retry_short, reads_free, job) };
    thread::map_vec(rt, jobs, &run)
}
