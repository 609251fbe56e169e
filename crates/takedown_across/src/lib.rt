// A of the take-down: while another face is left, a face is passed to the root.

#![tactic(auto)]

pub mod across;
