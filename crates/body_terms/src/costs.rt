//! What one run of a body costs.
ghost use Rattle.std.specs.Prelude.{◌≡◌, ◌+◌, ◌≤◌, ℕ, length, sum_by, count_by};
ghost use Rattle.body_terms.specs.Shape.{is_take};
ghost use Rattle.body_terms.specs.Cost.{step_cost, body_links, run_cost, steps_to};
ghost use Rattle.body_terms.specs.Line.{line, log_words};

use crate::body::Body;
use crate::step::Step;
use block_words::blocks_for;
use block_words::table_words::BLOCK_WORDS;

/// The loads with which a run opens: the twelve words of the thunk and the done word.
const OPENING: u64 = 13;

/// The stores and the exchange by which a run links one more block to its log.
const LINK: usize = BLOCK_WORDS + 1;

/// How many atomic steps this step has.
fn step_cost(step: &Step) -> u64
    ensures exact { result ≡ step_cost step.now }
    ensures small { result ≤ 11 }
{
    match step {
        Step::Load { .. } | Step::Retire { .. } => 2,
        Step::Want { .. } | Step::Fresh { .. } => 0,
        Step::Take { .. } => 5,
        Step::Make { .. } => 11,
        Step::Stamp => 3,
        Step::Store { .. } | Step::Answer { .. } => 1,
    }
}

/// How many atomic steps these steps have.
#[tactic(auto, using(crate::proofs::CostLemmas::steps_cost_le))]
fn steps_cost(steps: &[Step]) -> u64
    requires { length steps.now ≤ 40 }
    ensures exact { result ≡ sum_by step_cost steps.now }
    ensures small { result ≤ 440 }
{
    steps.iter().map(|step| step_cost(step)).sum()
}

/// How many words this step commits to the log.
fn step_words(step: &Step) -> u32
    ensures exact { result ≡ log_words step.now }
    ensures small { result ≤ 2 }
{
    match step {
        Step::Take { .. } => 2,
        Step::Load { .. } | Step::Make { .. } | Step::Retire { .. } => 1,
        Step::Want { .. } | Step::Fresh { .. } | Step::Stamp => 0,
        Step::Store { .. } | Step::Answer { .. } => 0,
    }
}

/// How many words these steps commit.
#[tactic(auto, using(crate::proofs::CostLemmas::steps_words_le))]
fn steps_words(steps: &[Step]) -> u32
    requires { length steps.now ≤ 40 }
    ensures exact { result ≡ sum_by log_words steps.now }
    ensures small { result ≤ 80 }
{
    steps.iter().map(|step| step_words(step)).sum()
}

/// How many of these steps take a lock.
fn take_count(steps: &[Step]) -> u64
    requires { length steps.now ≤ 40 }
    ensures exact { result ≡ count_by is_take steps.now }
    ensures small { result ≤ 40 }
{
    steps.iter().filter(|step| step.is_take()).count() as u64
}

/// The number of atomic steps of one run that leaves at no exit, with its opening and its end: the events of the run by
/// its line, and for each block that its log needs the stores that empty it and the exchange that links it. No run that
/// comes to any place of the line makes more.
pub fn cost(body: &Body) -> u64
    ensures exact { result ≡ run_cost body.now }
    ensures whole { (lock word : ℕ)
        → steps_to body.now (length (line body.now)) lock word + body_links body.now ≡ result }
    ensures most { (at lock word : ℕ) → steps_to body.now at lock word + body_links body.now ≤ result }
{
    let steps = body.steps.as_slice();
    let links = LINK * blocks_for(steps_words(steps)) as usize;
    let releases = take_count(steps) + 1;
    OPENING + steps_cost(steps) + links as u64 + 1 + releases
}
