// One operator on a table: its effect on links and points.

#![tactic(auto)]

pub mod effects;
