// The table of fields as the code has it: how many words a record of each kind has, and which of them a field is.
// It is the copy of `Fields` in the specs. The contracts of `columns`, `column` and `shape` hold the two together: with
// a wrong number here they are not proved.

// Capacities before the first record: one of each kind of item.
pub const HEAD: u32 = 5;

pub const SOLID_WIDTH: u32 = 1;

pub const SOLID_USED: u32 = 0;

pub const FACE_WIDTH: u32 = 2;

pub const FACE_SOLID: u32 = 0;

pub const FACE_OUTER: u32 = 1;

pub const LOOP_WIDTH: u32 = 3;

pub const LOOP_FACE: u32 = 0;

pub const LOOP_FIRST: u32 = 1;

pub const LOOP_ISOLATED: u32 = 2;

pub const HALF_WIDTH: u32 = 4;

pub const HALF_START: u32 = 0;

pub const HALF_LOOP: u32 = 1;

pub const HALF_NEXT: u32 = 2;

pub const HALF_PREV: u32 = 3;

pub const VERTEX_WIDTH: u32 = 1;

pub const VERTEX_USED: u32 = 0;
