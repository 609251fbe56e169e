// One operator on a table: the vertex that it kills, and its effect on points.

#![tactic(auto)]

pub mod points;
