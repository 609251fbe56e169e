// Counting a sound table: solids, faces, loops, edges, vertices, rings and holes.
ghost use Rattle.std.specs.Prelude.{◌≡◌, ℕ, ◌≤◌, ◌<◌};
ghost use Rattle.bounds.specs.Bounds.{most_items};
ghost use Rattle.table.specs.Count.{ring_used, holes_of, tally_of, count_of};
ghost use Rattle.layout.specs.Small.{Small};

use crate::check::checked;
use layout::columns::{face_outer, face_solid, loop_face, solid_used, start_of, vertex_used};
use layout::shape::{Shape, shape_of};

#[repr(C)]
#[derive(Clone, Copy)]
pub struct CountAnswer {
    pub refusal: u8,
    pub rule: u8,
    pub solids: usize,
    pub faces: usize,
    pub loops: usize,
    pub edges: usize,
    pub vertices: usize,
    pub rings: usize,
    pub holes: usize,
}

// The holes by Euler's formula, v − e + f = 2 (s − h) + r.
fn holes_of(s: usize, f: usize, e: usize, v: usize, r: usize) -> usize
    requires { (s ≤ most_items) × (f ≤ most_items) × (e ≤ most_items) × (v ≤ most_items) × (r ≤ most_items) }
    ensures { result ≡ holes_of s f e v r }
{
    let more = e + r + 2 * s;
    let less = v + f;
    if more < less {
        return 0;
    }
    (more - less) / 2
}

// Loop n is in use and not its face's outer loop.
fn is_ring(links: &[u16], sh: Shape, n: usize) -> bool
    requires { n < 65536 }
    ensures { result ≡ ring_used sh links.now n }
{
    let f = loop_face(links, sh, n);
    (f != 0) & (face_outer(links, sh, f) != n)
}

// The counts of a table.
fn tally_of(links: &[u16], sh: Shape) -> CountAnswer
    requires { Small sh }
    ensures { result ≡ tally_of sh links.now }
{
    let solids = searching::count(sh.solids as usize, |n| solid_used(links, sh, n) != 0);
    let faces = searching::count(sh.faces as usize, |n| face_solid(links, sh, n) != 0);
    let loops = searching::count(sh.loops as usize, |n| loop_face(links, sh, n) != 0);
    let edges = searching::count(sh.edges as usize, |n| start_of(links, sh, 2 * n) != 0);
    let vertices = searching::count(sh.vertices as usize, |n| vertex_used(links, sh, n) != 0);
    let rings = searching::count(sh.loops as usize, |n| is_ring(links, sh, n));
    let holes = holes_of(solids, faces, edges, vertices, rings);
    CountAnswer {
        refusal: 0,
        rule: 0,
        solids,
        faces,
        loops,
        edges,
        vertices,
        rings,
        holes,
    }
}

// Refusals 1 and 2 as the check gives them, with all counts 0; else the items in use, the rings and the holes.
pub fn count(links: &[u16], points: &[i32]) -> CountAnswer
    ensures { result ≡ count_of links.now points.now }
{
    match checked(links, points) {
        Ok(()) => tally_of(links, shape_of(links)),
        Err(refusal) => CountAnswer {
            refusal: refusal.number(),
            rule: refusal.rule(),
            solids: 0,
            faces: 0,
            loops: 0,
            edges: 0,
            vertices: 0,
            rings: 0,
            holes: 0,
        },
    }
}
