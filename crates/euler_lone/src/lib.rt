// mvsf and kvsf make and kill a solid of one vertex: test, effects and inverses.

#![tactic(auto)]

pub mod lone;
