//! Which requests a worker serves.
ghost use Rattle.std.specs.Prelude.{◌≡◌, ◌<◌, ◌≤◌, IfOk, All, length, take};
ghost use Rattle.machine_states.specs.map_history.specs.declared.op.Request.{Request};
ghost use Rattle.threaded_runs.specs.Own.{own_requests};

use machine_states::map_history::Request;
use std::alloc::{AllocError, Global};

/// How many of the first requests are of this trace.
fn run_length(requests: &[Request], trace: u32) -> usize
    ensures within { result ≤ length requests.now }
    ensures same { All (λ (request : Request). request.trace ≡ trace) (take result requests.now) }
{
    let mut len = 0;
    while len < requests.len() && requests[len].trace == trace {
        len += 1;
    }
    len
}

/// The requests of the worker with this number among so many, in a list of their own.
///
/// A worker's traces are the one with its number, the one so many behind it and so on. The Err is want of memory.
pub fn requests_of(
    alloc: Global,
    requests: &[Request],
    worker: u32,
    runners: u32,
) -> Result<Vec<Request>, AllocError>
    requires { 0 < runners }
    ensures { IfOk result (λ own. own.items ≡ own_requests runners worker requests.now) }
{
    let mut own = Vec::new(alloc);
    let mut rest = requests;
    // Requests of a trace follow one another, so that they are taken over together.
    while let Some((first, more)) = rest.split_first() {
        let (run, later) = rest.split_at(run_length(more, first.trace) + 1);
        if first.trace % runners == worker {
            own.extend_from_slice(run)?;
        }
        rest = later;
    }
    Ok(own)
}
