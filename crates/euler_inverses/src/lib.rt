// One operator on a table: the operator that undoes it. This only reads, so that the inverse's length is known before
// anything is stored.

#![tactic(auto)]

pub mod inverses;
