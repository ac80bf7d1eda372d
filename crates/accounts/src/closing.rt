//! The balances in the words of a closed table.
ghost use Rattle.std.specs.Prelude.{◌≡◌, ◌*◌, ◌<◌, IfOk, sum};
ghost use Rattle.account_laws.specs.Accounts.{accounts_of};
ghost use Rattle.closed_words.specs.Histories.{HoldsNoLock};
ghost use Rattle.accounts.specs.Balances.{AreBalances};

use crate::body::balance_of;
use crate::table::Accounts;
use closed_words::closed_words_have_a_history;
use closed_words::version_words::Words;
use std::alloc::{AllocError, Global};

/// The balances of all accounts, in order of number. The Err is want of memory.
///
/// Where no lock of the table is held, as it is once its keeper has settled it, their sum is what it was at first:
/// whatever transfers were asked, in whatever order, and wherever a thread stopped.
pub fn balances(alloc: Global, words: &Words<Accounts>) -> Result<Vec<u32>, AllocError>
    ensures balances { IfOk result (λ items. AreBalances
        (accounts_of words.now.structure.accounts words.now.structure.opening) words.now words.now.structure.accounts
        items.items) }
    ensures sum { IfOk result (λ items. HoldsNoLock
        (accounts_of words.now.structure.accounts words.now.structure.opening) words.now
        → sum items.items ≡ words.now.structure.accounts * words.now.structure.opening) }
{
    closed_words_have_a_history(words);
    let accounts = words.structure().count();
    let mut balances = Vec::with_capacity(alloc, accounts as usize)?;
    for account in 0..accounts {
        balances.push(words.cell(balance_of(account)).value())?;
    }
    Ok(balances)
}
