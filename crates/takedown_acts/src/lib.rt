// The take-down carries out: one operator with its inverse logged, and the rings that move in A.

#![tactic(auto)]

pub mod acts;
pub mod rings;
