// The lines of an OBJ text, put into a buffer.

#![tactic(auto)]

pub mod bytes; // bytes, numbers and coordinates
pub mod lines; // the lines of vertices and faces
