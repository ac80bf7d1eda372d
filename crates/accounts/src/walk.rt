//! The walk that plans a transfer.
ghost use Rattle.std.specs.Prelude.{◌≡◌, ◌≢◌, ◌<◌};
ghost use Rattle.account_laws.specs.Accounts.{accounts_of};
ghost use Rattle.lock_walks.specs.Way.{Leads};
ghost use Rattle.lock_walks.specs.Wants.{WantsWereRead};
ghost use Rattle.accounts.specs.Walk.{is_open, found_after, thunk_by, begun, transfer_planning, transfer_way};
ghost use Rattle.accounts.specs.Made.{Makes};

use crate::body::lock_of;
use crate::table::Accounts;
use crate::transfer::Transfer;
use lock_walks::Walker;
use runner_steps::body_terms::{Place, Thunk, Word};
use runner_steps::map_history::Op;
use runner_steps::table_words::Layout;

/// The words that a walk has found: the lower account's balance, the upper one's, and then the upper account's lock and
/// the lower one's.
#[derive(Clone, Copy, Debug, PartialEq, Eq)]
pub enum Found {
    Nothing,
    Lower(Word),
    Balances(Word, Word),
    Locked(Word, Word, Word),
    All(Word, Word, Word, Word),
}

/// How far the walk of a transfer has come.
#[derive(Clone, Copy, Debug)]
pub struct TransferWalk {
    transfer: Transfer,
    lock: Place,
    version_max: u32,
    op: Op,
    found: Found,
}

/// What was found, with one word more.
fn found_after(found: Found, word: Word) -> Found
    ensures { result ≡ found_after found word }
{
    match found {
        Found::Nothing => Found::Lower(word),
        Found::Lower(first) => Found::Balances(first, word),
        Found::Balances(first, second) => Found::Locked(first, second, word),
        Found::Locked(first, second, inner) => Found::All(first, second, inner, word),
        Found::All(first, second, inner, outer) => Found::All(first, second, inner, outer),
    }
}

/// Whether a lock with this word is free and has versions left.
fn is_open(version_max: u32, word: Word) -> bool
    ensures { result ≡ is_open version_max word }
{
    word.value() == 0 && u64::from(word.version()) + 2 <= u64::from(version_max)
}

/// The thunk that moves the money, by the words of the balances and of the locks.
fn thunk_by(
    transfer: &Transfer,
    lock: Place,
    request: u32,
    first: Word,
    second: Word,
    inner: Word,
    outer: Word,
) -> Thunk
    ensures { result ≡ thunk_by transfer.now lock request first second inner outer }
{
    let (lower, upper) = transfer.after(first.value(), second.value());
    Thunk {
        form: 1,
        request,
        lock,
        word: outer,
        operands: [
            first.bits(),
            second.bits(),
            u64::from(lower),
            u64::from(upper),
            u64::from(transfer.lower()),
            u64::from(transfer.upper()),
            inner.bits(),
            0,
        ],
    }
}

impl Accounts {
    /// The walk that plans this transfer between two of the accounts, which has loaded nothing. It is for a request
    /// with any operation, since accounts serve no map. What the sections of accounts want of a balance was read there;
    /// where a section happened with this walk's own thunk, the transfer was made, of so much as could be moved.
    pub fn walk(&self, layout: Layout, op: Op, transfer: Transfer) -> TransferWalk
        requires from { transfer.from < self.now.accounts }
        requires to { transfer.to < self.now.accounts }
        requires apart { transfer.from ≢ transfer.to }
        ensures begun { result ≡ begun transfer layout.version_max op }
        ensures op { result.op ≡ op }
        ensures planning { transfer_way.planning result ≡ transfer_planning transfer }
        ensures leads { Leads transfer_way (accounts_of self.now.accounts self.now.opening) layout result }
        ensures wants { WantsWereRead (accounts_of self.now.accounts self.now.opening) }
        ensures makes { Makes (accounts_of self.now.accounts self.now.opening) transfer result }
    {
        let _few = self.count();
        let lower = transfer.lower();
        TransferWalk {
            transfer,
            lock: lock_of(lower),
            version_max: layout.version_max,
            op,
            found: Found::Nothing,
        }
    }
}

impl Walker for TransferWalk {
    ghost way = { transfer_way };

    fn wanted(&self) -> Option<u64> {
        let lower = 2 * u64::from(self.transfer.lower());
        let upper = 2 * u64::from(self.transfer.upper());
        match self.found {
            Found::Nothing => Some(lower + 1),
            Found::Lower(_) => Some(upper + 1),
            Found::Balances(_, _) => Some(upper),
            Found::Locked(_, _, inner) => {
                if is_open(self.version_max, inner) {
                    Some(lower)
                } else {
                    None
                }
            }
            Found::All(_, _, _, _) => None,
        }
    }

    fn feed(&mut self, word: Word) {
        self.found = found_after(self.found, word);
    }

    fn is_refused(&self) -> bool {
        match self.found {
            Found::Locked(_, _, inner) => !is_open(self.version_max, inner),
            Found::All(_, _, _, outer) => !is_open(self.version_max, outer),
            _ => false,
        }
    }

    fn is_mark(&self, _place: Place) -> bool {
        false
    }

    fn thunk(&self, number: u32) -> Thunk {
        let none = Word::from_bits(0);
        match self.found {
            Found::All(first, second, inner, outer) => {
                thunk_by(
                    &self.transfer,
                    self.lock,
                    number,
                    first,
                    second,
                    inner,
                    outer,
                )
            }
            _ => thunk_by(&self.transfer, self.lock, number, none, none, none, none),
        }
    }
}
