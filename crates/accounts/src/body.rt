//! The section that moves money.
ghost use Rattle.std.specs.Prelude.{◌≡◌, ◌*◌, ◌≤◌, ◌<◌, ◌+◌};
ghost use Rattle.account_laws.specs.Accounts.{lock_of, balance_of, apart, account_in, transfer_body};

use account_laws::shared_laws::{answer, load, store, want};
use runner_steps::body_terms::{Body, Place, Step, Thunk, Word};

/// The account that an operand names, where it is one of so many; else the first.
pub fn account_in(accounts: u32, thunk: &Thunk, operand: usize) -> u32
    requires operand { operand < 8 }
    ensures account { result ≡ account_in accounts thunk.now operand }
    ensures low { result ≤ accounts }
{
    if thunk.operands[operand] < u64::from(accounts) {
        thunk.operands[operand] as u32
    } else {
        0
    }
}

/// The place of an account's lock.
pub fn lock_of(account: u32) -> Place
    requires { 2 * account ≤ 12288 }
    ensures { result ≡ lock_of account }
{
    2 * account
}

/// The place of an account's balance.
pub fn balance_of(account: u32) -> Place
    requires { 2 * account ≤ 12288 }
    ensures { result ≡ balance_of account }
{
    2 * account + 1
}

/// How far apart two numbers are.
fn apart(a: u32, b: u32) -> u32
    ensures { result ≡ apart a b }
{
    if a < b { b - a } else { a - b }
}

/// Puts the steps of a transfer in place of those that are there.
pub fn fill_body(accounts: u32, thunk: &Thunk, body: &mut Body)
    requires { 2 * accounts ≤ 12288 }
    ensures { body.new ≡ transfer_body accounts thunk.now }
{
    let lower = account_in(accounts, thunk, 4);
    let upper = account_in(accounts, thunk, 5);
    let wanted = Word::from_bits(thunk.operands[0]);
    let new = Word::from_bits(thunk.operands[2]);
    let moved = apart(new.value(), wanted.value());
    body.refill(&[
        load(balance_of(lower), 0),
        want(0, thunk.operands[0]),
        Step::Fresh { reg: 0 },
        Step::Take {
            place: lock_of(upper),
            word: Word::from_bits(thunk.operands[6]),
        },
        load(balance_of(upper), 1),
        want(1, thunk.operands[1]),
        Step::Fresh { reg: 1 },
        Step::Stamp,
        store(0, thunk.operands[2]),
        store(1, thunk.operands[3]),
        answer(u64::from(moved) + 1),
    ]);
}
