// The thirteen Euler operators: what they share in code that reads. The definitions of all thirteen are in `specs/`.

#![tactic(auto)]

pub mod admit;
pub mod faces;
pub mod records;
pub mod scans;
