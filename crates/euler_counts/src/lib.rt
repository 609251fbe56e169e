// How many loops each face has, counted once for a call and then kept up, so that no operator has to count them.

#![tactic(auto)]

pub mod counts; // read, filled, one less, one more
