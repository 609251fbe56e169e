// The take-down of a table that may be any.

#![tactic(auto)]

pub mod invert;
