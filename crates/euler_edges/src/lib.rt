// What the operators on edges and vertices share.

#![tactic(auto)]

pub mod parts;
