// What the operators share in code that walks along a loop.

#![tactic(auto)]

pub mod walks;
