// A solid as Wavefront OBJ text: what it is, in specs/, and what is answered.

#![tactic(auto)]

pub mod answer;
