// The turns of the take-down, each one round of a "while" of document 01.

#![tactic(auto)]

pub mod turn;
