// Clearing, checking and counting a table.

#![tactic(auto)]

pub mod check;
pub mod clear;
pub mod count;
mod sizes;
