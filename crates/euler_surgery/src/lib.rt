// What the operators share in code that stores: whole records, points, an edge going in and an edge coming out.

#![tactic(auto)]

pub mod points;
pub mod records;
pub mod surgery;
