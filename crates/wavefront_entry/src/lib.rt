// A solid of a table, written as OBJ text.

#![tactic(auto)]

pub mod ranks; // the vertices of a solid, counted
pub mod solid; // refusals 5, 6 and 12
pub mod obj; // the whole call
