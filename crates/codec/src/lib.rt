// Operands as bytes: for each code the kinds of its operands, their ranges, and the numbers as which they travel. (The
// bytes of one number are in crate `numbers`.)

#![tactic(auto)]

pub mod operands; // what each operand is
pub mod bytes; // operands as bytes

// The largest number of each kind; there are twice as many half-edges as edges.
#[derive(Clone, Copy)]
pub struct Limits {
    pub solids: u16,
    pub faces: u16,
    pub loops: u16,
    pub edges: u16,
    pub vertices: u16,
}
