//! The accounts are a structure.
ghost use Rattle.std.specs.Prelude.{◌≡◌, ◌*◌, ◌<◌, ◌≤◌, ◌^◌, false, refl};
ghost use Rattle.account_laws.specs.Accounts.{accounts_of};
ghost use Rattle.account_laws.proofs.AccountLaws.{account_laws};

use crate::body::fill_body;
use crate::fit::is_transfer;
use agreement_core::section_lines::structure_laws::Structure;
use runner_steps::body_terms::{Body, Place, Thunk, Word};
use runner_steps::map_history::Op;
use runner_steps::table_words::Layout;

/// So many accounts, each with a lock and a balance, which is the same for all of them at first.
///
/// A section moves money from one account to another, so that the sum of all balances stays what it was at first.
#[derive(Drop, Debug)]
pub struct Accounts {
    pub(crate) accounts: u32,
    pub(crate) opening: u32,
    pub ghost few: { 2 * accounts ≤ 12288 },
    pub ghost small: { opening < 2 ^ 32 },
}

impl Accounts {
    /// So many accounts, at most 6144, each of which has so much at first.
    pub fn new(accounts: u32, opening: u32) -> Accounts
        requires few { 2 * accounts ≤ 12288 }
        ensures accounts { result.accounts ≡ accounts }
        ensures opening { result.opening ≡ opening }
    {
        Accounts { accounts, opening }
    }

    /// How many accounts there are.
    pub fn count(&self) -> u32
        ensures count { result ≡ self.now.accounts }
        ensures few { 2 * result ≤ 12288 }
    {
        self.accounts
    }
}

impl Structure for Accounts {
    ghost meaning = { λ s. accounts_of s.accounts s.opening };

    ghost MAP = { false };

    const MAP: bool = false;

    fn fixed_cells(&self) -> u32 {
        2 * self.accounts
    }

    fn fixed_slots(&self) -> u32 {
        0
    }

    fn first_value(&self, place: Place) -> u32 {
        if place % 2 == 1 { self.opening } else { 0 }
    }

    fn is_lock(&self, place: Place) -> bool {
        place < 2 * self.accounts && place % 2 == 0
    }

    fn body(&self, thunk: &Thunk) -> Body {
        let mut body = Body::empty();
        fill_body(self.accounts, thunk, &mut body);
        body
    }

    fn body_in(&self, thunk: &Thunk, body: &mut Body) {
        fill_body(self.accounts, thunk, body);
    }

    fn reaches(&self, _readings: &[(Place, Word)], _slot: u32) -> bool {
        false
    }

    fn fits(&self, layout: Layout, _op: Op, readings: &[(Place, Word)], thunk: &Thunk) -> bool {
        is_transfer(self.accounts, layout.version_max, readings, thunk)
    }

    ghost serves = { λ s. refl };

    ghost laws = { λ s. account_laws s.accounts s.opening s.few s.small };
}
