// The operator that stands at a place of a script, read, tested and admitted in one pass over its operands.

#![tactic(auto)]

pub mod take; // the pass
