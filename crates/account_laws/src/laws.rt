//! Accounts meet the laws of a structure.
ghost use Rattle.std.specs.Prelude.{◌*◌, ◌<◌, ◌≤◌, ◌^◌};
ghost use Rattle.runner_parts.specs.structure_laws.specs.Laws.{Laws};
ghost use Rattle.account_laws.specs.Accounts.{accounts_of};

/// So many accounts, each of which has so much at first, meet every law: their first memory, the shape of a transfer,
/// one transfer after the other, every move, and what the core relies on.
///
/// So the sum of all balances is what it was at first, in the completed memory of every state that the machine reaches,
/// and in the cells of a closed table that holds no lock.
pub fn accounts_meet_the_laws(accounts: u32, opening: u32)
    requires { 2 * accounts ≤ 12288 }
    ensures { Laws (accounts_of accounts opening) }
{
    let _any = (accounts, opening);
}
