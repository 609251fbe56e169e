// One operator on a table whose loops are counted: its effect on links, points and the numbers of loops.

#![tactic(auto)]

pub mod counted;
