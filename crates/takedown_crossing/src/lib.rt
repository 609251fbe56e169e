// Whether another edge crosses an edge: some edge has exactly one half between k and its mate.

#![tactic(auto)]

pub mod marks;
