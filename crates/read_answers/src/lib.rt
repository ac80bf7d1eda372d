//! What a reader without a lock answers: the reply of the map after all stamped requests.
//!
//! The definitions stand in specs: `Looks` has what a reader has found and what of it stands, `Answers` what
//! follows where the lock still has the word that was read first. `laws` has the law on a contract.
#![tactic(auto)]

mod laws;

pub use laws::looks_answer_the_map;
