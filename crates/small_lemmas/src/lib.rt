//! Lemmas on numbers, truth values, options and lists that many proofs want, each once.
//!
//! They stand in proofs: `Numbers`, `Bools` and `Lists`. There is no code.
#![tactic(auto)]
