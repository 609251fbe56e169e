// The rules of a sound table as far as one item can break them: each test is of one item.

#![tactic(auto)]

pub mod joins;
pub mod names;
pub mod ranges;
