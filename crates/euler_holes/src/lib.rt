// kfmrh and mfkrh, which make and kill holes, and join and divide solids: tests, effects and inverses.

#![tactic(auto)]

pub mod holes; // the two operators
mod moves; // faces pass to another solid
