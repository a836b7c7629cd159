//! Lemmas on lists that several crates use in their proofs. There is no code here.
#![tactic(auto)]
