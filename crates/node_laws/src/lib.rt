//! What structures of linked nodes write alike: definitions in specs and lemmas in proofs.
#![tactic(auto)]
