//! Requests that are made from numbers.
ghost use Rattle.std.specs.Prelude.{◌≡◌, ◌<◌, ◌^◌, ◌+◌, ◌*◌, IfOk};
ghost use Rattle.map_history.specs.Requests.{AreInOrder, AreOfFormat1};
ghost use Rattle.trace_reader.specs.Generator.{IsPlan, generated, generated_at, key_by, next_state, op_by, state_after};

use crate::requests::Requests;
use crate::traces::Traces;
use map_history::{Op, Request};
use std::alloc::{AllocError, Global};

/// What is to be generated: so many traces of so many requests each, with keys below a number.
#[derive(Clone, Copy, Debug, PartialEq, Eq)]
pub struct Gen {
    /// The state before the first draw, at most 2,147,483,647.
    pub seed: u32,
    /// At most 64.
    pub traces: u32,
    /// The requests of each trace.
    pub length: u32,
    /// 1 to 32,768.
    pub keys: u32,
    /// Whether no two traces have a key in common.
    pub apart: bool,
}

/// Generates requests. Each takes two outputs of a linear congruential generator, whose state runs on across traces:
/// the first is the operation, of which half are insertions and a quarter each deletions and look-ups, the second the
/// key.
///
/// The value of an insertion is ten times its key. All traces together have at most 131,072 requests. The Err is want
/// of memory.
pub fn generate(alloc: Global, plan: &Gen) -> Result<Traces, AllocError>
    requires { IsPlan plan.now }
    ensures count { IfOk result (λ traces. traces.count ≡ plan.now.traces) }
    ensures requests { IfOk result (λ traces. traces.requests ≡ generated plan.now) }
    ensures ordered { IfOk result (λ traces. AreInOrder traces.requests traces.count) }
    ensures format { IfOk result (λ traces. AreOfFormat1 traces.requests) }
    ensures header { IfOk result (λ traces. traces.format ≡ 1) }
{
    let mut requests = Requests::new(alloc);
    let mut state = plan.seed;
    for number in 0..plan.traces * plan.length {
        let first = next_state(state);
        let second = next_state(first);
        requests.push(request_of(plan, number, first, second))?;
        state = second;
    }
    Ok(Traces {
        format: 1,
        count: plan.traces,
        requests,
    })
}

// The state behind a state.
fn next_state(state: u32) -> u32
    requires { state < 2 ^ 31 }
    ensures next { result ≡ next_state state }
    ensures bound { result < 2 ^ 31 }
{
    let next = 1_103_515_245 * u64::from(state) + 12_345;
    (next % (1 << 31)) as u32
}

// The request with this number, by the states behind the two draws for it.
fn request_of(plan: &Gen, number: u32, first: u32, second: u32) -> Request
    requires plan { IsPlan plan.now }
    requires within { number < plan.now.traces * plan.now.length }
    requires first { first ≡ state_after plan.now.seed (2 * number + 1) }
    requires second { second ≡ state_after plan.now.seed (2 * number + 2) }
    ensures { result ≡ generated_at plan.now number }
{
    let trace = number / plan.length;
    Request {
        trace,
        number,
        op: op_of(first / 65_536, key_of(plan, trace, second / 65_536)),
    }
}

// The key of a request of this trace.
fn key_of(plan: &Gen, trace: u32, output: u32) -> u32
    requires plan { IsPlan plan.now }
    requires within { trace < plan.now.traces }
    ensures key { result ≡ key_by plan.now trace output }
    ensures bound { result < 2097152 }
{
    let key = output % plan.keys;
    if plan.apart {
        key * plan.traces + trace
    } else {
        key
    }
}

// What the first output asks of the key.
fn op_of(output: u32, key: u32) -> Op
    requires { key < 2097152 }
    ensures { result ≡ op_by output key }
{
    match output % 4 {
        0 | 1 => Op::Ins(key, 10 * key),
        2 => Op::Del(key),
        _ => Op::Get(key),
    }
}
