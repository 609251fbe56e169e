// The operators of the take-down, and the turns of B and C planned by reading alone.

#![tactic(auto)]

pub mod operators;
pub mod plans;
