// The words of a table: where each record stands, and reading and writing one word of it.
//
// Reading and writing are total: past the end, and for record 0, which means none, a read answers 0 and a
// store does nothing. So nothing has to be known of a table before it is looked at.

#![tactic(auto)]

pub mod cells;
pub mod column;
pub mod columns;
pub mod fields;
pub mod mates;
pub mod points;
pub mod shape;
