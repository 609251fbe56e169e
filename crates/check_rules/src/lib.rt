// The six rules of a sound table.

#![tactic(auto)]

mod labels;
pub mod rules;
