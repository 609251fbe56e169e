// One operator on a table: its refusal. This only reads, so that a refused operator changes nothing.

#![tactic(auto)]

pub mod conditions;
