//! Which thunk fits what was read.
ghost use Rattle.std.specs.Prelude.{◌≡◌, ◌*◌, ◌≤◌};
ghost use Rattle.runner_steps.specs.runner_parts.specs.Tests.{has_pair};
ghost use Rattle.account_laws.specs.Accounts.{is_in_order, was_read, is_takeable, keeps_sum, is_transfer};

use crate::body::{account_in, balance_of, lock_of};
use runner_steps::body_terms::{Place, Thunk, Word};

/// Whether this word was read in this place.
fn has_pair(readings: &[(Place, Word)], place: Place, word: Word) -> bool
    ensures { result ≡ has_pair readings.now place word }
{
    readings
        .iter()
        .any(|&(read, found)| read == place && found == word)
}

/// Whether the thunk's outer lock is that of the lower one of two accounts.
fn is_in_order(accounts: u32, thunk: &Thunk) -> bool
    requires { 2 * accounts ≤ 12288 }
    ensures { result ≡ is_in_order accounts thunk.now }
{
    let lower = account_in(accounts, thunk, 4);
    let upper = account_in(accounts, thunk, 5);
    lower < upper && (upper < accounts && thunk.lock == lock_of(lower))
}

/// Whether the words that it wants in the two balances, and the one that it expects in the upper account's lock, were
/// read there.
fn was_read(accounts: u32, readings: &[(Place, Word)], thunk: &Thunk) -> bool
    requires { 2 * accounts ≤ 12288 }
    ensures { result ≡ was_read accounts readings.now thunk.now }
{
    let lower = account_in(accounts, thunk, 4);
    let upper = account_in(accounts, thunk, 5);
    let first = Word::from_bits(thunk.operands[0]);
    let second = Word::from_bits(thunk.operands[1]);
    let inner = Word::from_bits(thunk.operands[6]);
    has_pair(readings, balance_of(lower), first)
        && (has_pair(readings, balance_of(upper), second)
            && has_pair(readings, lock_of(upper), inner))
}

/// Whether the word that it expects in the upper account's lock is free and has versions left.
fn is_takeable(version_max: u32, thunk: &Thunk) -> bool
    ensures { result ≡ is_takeable version_max thunk.now }
{
    let inner = Word::from_bits(thunk.operands[6]);
    inner.value() == 0 && u64::from(inner.version()) + 2 <= u64::from(version_max)
}

/// Whether the two balances have together what they had.
fn keeps_sum(thunk: &Thunk) -> bool
    ensures { result ≡ keeps_sum thunk.now }
{
    let new = (
        Word::from_bits(thunk.operands[2]).value(),
        Word::from_bits(thunk.operands[3]).value(),
    );
    let wanted = (
        Word::from_bits(thunk.operands[0]).value(),
        Word::from_bits(thunk.operands[1]).value(),
    );
    u64::from(new.0) + u64::from(new.1) == u64::from(wanted.0) + u64::from(wanted.1)
}

/// Whether the thunk moves money between two of so many accounts, whose balances and upper lock were read.
pub fn is_transfer(
    accounts: u32,
    version_max: u32,
    readings: &[(Place, Word)],
    thunk: &Thunk,
) -> bool
    requires { 2 * accounts ≤ 12288 }
    ensures { result ≡ is_transfer accounts version_max readings.now thunk.now }
{
    is_in_order(accounts, thunk)
        && (was_read(accounts, readings, thunk)
            && (is_takeable(version_max, thunk) && keeps_sum(thunk)))
}
