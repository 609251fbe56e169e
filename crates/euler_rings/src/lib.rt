// rmov moves a ring: test, effect and inverse.

#![tactic(auto)]

pub mod rings;
