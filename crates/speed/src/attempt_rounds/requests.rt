//! What is asked of the table: 1,000 keys are put in, and then come requests of one kind.
ghost use Rattle.std.specs.Prelude.{◌≡◌, ◌<◌, ◌≤◌, IfOk, length};
ghost use Rattle.machine_states.specs.map_history.specs.Requests.{AreInOrder};
ghost use Rattle.speed.specs.Asked.{key_at, asked_by, request_at, requests_of};

use crate::attempt_rounds::kinds::Kind;
use machine_states::map_history::{Op, Request};
use std::alloc::{AllocError, Global};

/// The most requests that a table has.
pub const MOST: u32 = 131_072;

/// How many keys are put in first.
const KEYS: u32 = 1_000;

/// Half the key of this turn. A thousand turns come to each number below 1,000 once.
fn key_at(turn: u32) -> u32
    requires few { turn < 131072 }
    ensures key { result ≡ key_at turn }
    ensures small { result < 1000 }
{
    7_919 * turn % KEYS
}

/// What a request of this kind asks in this turn. The keys that are there are even.
fn asked_by(kind: Kind, turn: u32) -> Op
    requires few { turn < 131072 }
    ensures { result ≡ asked_by kind turn }
{
    match kind {
        Kind::Found => Op::Get(2 * key_at(turn)),
        Kind::Missed => Op::Get(2 * key_at(turn) + 1),
        Kind::Refused => Op::Ins(2 * key_at(turn), 1),
        Kind::Turns => {
            let key = 2 * key_at(turn / 2) + 1;
            if turn % 2 == 0 {
                Op::Ins(key, 1)
            } else {
                Op::Del(key)
            }
        }
    }
}

/// The request with this number.
fn request_at(kind: Kind, number: u32) -> Request
    requires few { number < 131072 }
    ensures { result ≡ request_at kind number }
{
    let op = if number < KEYS {
        let key = key_at(number);
        Op::Ins(2 * key, key)
    } else {
        asked_by(kind, number - KEYS)
    };
    Request {
        trace: 0,
        number,
        op,
    }
}

/// The first so many requests, in one trace.
pub fn requests_of(alloc: Global, kind: Kind, count: u32) -> Result<Vec<Request>, AllocError>
    requires few { count ≤ 131072 }
    ensures requests { IfOk result (λ requests. requests.items ≡ requests_of kind count) }
    ensures length { IfOk result (λ requests. length requests.items ≡ count) }
    ensures ordered { IfOk result (λ requests. AreInOrder requests.items 64) }
{
    let mut requests = Vec::with_capacity(alloc, count as usize)?;
    for number in 0..count {
        requests.push(request_at(kind, number))?;
    }
    Ok(requests)
}
