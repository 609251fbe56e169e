// A column as a value: where one field's words stand, and how many there are. A scan goes down a column, `entry_of` in
// the specs, and knows no field.
ghost use Rattle.std.specs.Prelude.{◌≡◌, ℕ};
ghost use Rattle.layout.specs.Fields.{Solid, Face, Isolated, Start};
ghost use Rattle.layout.specs.Column.{column_at};

use crate::fields::{
    FACE_SOLID, FACE_WIDTH, HALF_START, HALF_WIDTH, LOOP_FACE, LOOP_ISOLATED, LOOP_WIDTH,
};
use crate::shape::Shape;

#[derive(Clone, Copy)]
pub struct Column {
    pub base: u32,
    pub width: u32,
    pub word: u32,
    pub count: usize,
}

// The solid of each face.
pub fn solids_of_faces(sh: Shape) -> Column
    ensures { result ≡ column_at sh Solid }
{
    Column {
        base: sh.face0,
        width: FACE_WIDTH,
        word: FACE_SOLID,
        count: sh.faces as usize,
    }
}

// The face of each loop.
pub fn faces_of_loops(sh: Shape) -> Column
    ensures { result ≡ column_at sh Face }
{
    Column {
        base: sh.loop0,
        width: LOOP_WIDTH,
        word: LOOP_FACE,
        count: sh.loops as usize,
    }
}

// The isolated vertex of each loop.
pub fn isolated_of_loops(sh: Shape) -> Column
    ensures { result ≡ column_at sh Isolated }
{
    Column {
        base: sh.loop0,
        width: LOOP_WIDTH,
        word: LOOP_ISOLATED,
        count: sh.loops as usize,
    }
}

// The start of each half-edge.
pub fn starts_of_halves(sh: Shape) -> Column
    ensures { result ≡ column_at sh Start }
{
    Column {
        base: sh.half0,
        width: HALF_WIDTH,
        word: HALF_START,
        count: 2 * (sh.edges as usize),
    }
}
