// How many items of each kind a table has, and where the records of each kind begin.
ghost use Rattle.std.specs.Prelude.{◌≡◌};
ghost use Rattle.layout.specs.Layout.{capacities_of, shape_from, length_of, shape_of};

use crate::cells::word;
use crate::fields::{FACE_WIDTH, HALF_WIDTH, HEAD, LOOP_WIDTH, SOLID_WIDTH, VERTEX_WIDTH};

#[derive(Clone, Copy)]
pub struct Shape {
    pub solids: u32,
    pub faces: u32,
    pub loops: u32,
    pub edges: u32,
    pub vertices: u32,
    pub face0: u32,
    pub loop0: u32,
    pub half0: u32,
    pub vertex0: u32,
}

// How many items of each kind a table has room for.
#[derive(Clone, Copy)]
pub struct Capacities {
    pub solids: u16,
    pub faces: u16,
    pub loops: u16,
    pub edges: u16,
    pub vertices: u16,
}

// The capacities that a table's first five words say.
pub fn capacities_of(links: &[u16]) -> Capacities
    ensures { result ≡ capacities_of links.now }
{
    Capacities {
        solids: word(links, 0) as u16,
        faces: word(links, 1) as u16,
        loops: word(links, 2) as u16,
        edges: word(links, 3) as u16,
        vertices: word(links, 4) as u16,
    }
}

// The shape of a table of these capacities.
pub fn shape_from(c: Capacities) -> Shape
    ensures { result ≡ shape_from c.solids c.faces c.loops c.edges c.vertices }
{
    let solids = c.solids as u32;
    let faces = c.faces as u32;
    let loops = c.loops as u32;
    let edges = c.edges as u32;
    let vertices = c.vertices as u32;
    let face0 = HEAD + SOLID_WIDTH * solids;
    let loop0 = face0 + FACE_WIDTH * faces;
    let half0 = loop0 + LOOP_WIDTH * loops;
    let vertex0 = half0 + 2 * HALF_WIDTH * edges;
    Shape {
        solids,
        faces,
        loops,
        edges,
        vertices,
        face0,
        loop0,
        half0,
        vertex0,
    }
}

// How many words the links of a table of this shape have.
pub fn links_length(sh: Shape) -> usize
    ensures { result ≡ length_of sh }
{
    sh.vertex0 as usize + VERTEX_WIDTH as usize * sh.vertices as usize
}

// The shape that a table's first five words say.
pub fn shape_of(links: &[u16]) -> Shape
    ensures { result ≡ shape_of links.now }
{
    shape_from(capacities_of(links))
}
