//! Accounts on the locks: a structure that serves no map, whose sections move money from one account to another.
//!
//! `table` has the accounts, `body` the section, `fit` which thunk fits what was read, `transfer` what is to be moved,
//! `walk` how a transfer is planned, and `closing` what a closed table holds.
#![tactic(auto)]

mod body;
mod closing;
mod fit;
mod table;
mod transfer;
mod walk;

pub use closing::balances;
pub use table::Accounts;
pub use transfer::Transfer;
pub use walk::{Found, TransferWalk};
