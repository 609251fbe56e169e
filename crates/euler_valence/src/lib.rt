// The vertex words under an operator.

#![tactic(auto)]

pub mod valence;
