//! What goes into a worker's thread, and what comes out of it.

use free_serving::serving::Served;
use machine_states::map_history::Request;
use machine_states::structure_laws::Structure;
use version_words::Runner;

/// A worker with its gate and its requests.
#[derive(Drop)]
pub struct Job<S: Structure, G> {
    pub runner: Runner<S>,
    pub gate: G,
    pub requests: Vec<Request>,
}

/// The worker and its gate behind the run, and what the serving of its requests answered.
#[derive(Drop)]
pub struct Finished<S: Structure, G> {
    pub runner: Runner<S>,
    pub gate: G,
    pub answer: Served,
}
