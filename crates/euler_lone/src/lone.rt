// A solid of one face with one lone loop: mvsf makes it, kvsf kills it.
ghost use Rattle.std.specs.Prelude.{◌≡◌, ℕ, ◌<◌, ◌≤◌};
ghost use Rattle.layout.specs.Small.{Small};
ghost use Rattle.layout.specs.Items.{face_in};
ghost use Rattle.euler.specs.Queries.{faces_in};
ghost use Rattle.euler.specs.FaceOperators.{mvsf_links, mvsf_inverse, kvsf_test, kvsf_links, kvsf_inverse};
ghost use Rattle.euler_counts.specs.Counts.{Counted};
ghost use Rattle.euler_lone.specs.Lone.{IsLone, IsLoneOfAny};
ghost use Rattle.euler_lone.specs.LoneLaws.{face_after};

use bounds::ITEM_PLACES;
use euler::scans::{count_naming, least_naming_one};
use euler_counts::counts::loops_kept;
use euler_surgery::points::with_point;
use euler_surgery::records::{put_face, put_loop};
use layout::column::solids_of_faces;
use layout::columns::{face_outer, face_solid, loop_isolated, set_solid_used, set_vertex_used};
use layout::shape::Shape;
use script::{Operator, blank, with_number};
use searching::least;

// A solid with its only face, that face's only loop and the loop's only vertex.
#[derive(Clone, Copy)]
pub struct LoneSolid {
    pub solid: usize,
    pub face: usize,
    pub outer: usize,
    pub vertex: usize,
}

// The solid goes into the links.
pub fn mvsf_links(links: &mut [u16], sh: Shape, t: LoneSolid)
    requires { (t.solid < 65536) × (t.face < 65536) × (t.outer < 65536) × (t.vertex < 65536) }
    ensures { links.new ≡ mvsf_links sh links.old t.solid t.face t.outer t.vertex }
{
    set_solid_used(links, sh, t.solid, 1);
    put_face(links, sh, t.face, t.solid, t.outer);
    put_loop(links, sh, t.outer, t.face, 0, t.vertex);
    set_vertex_used(links, sh, t.vertex, 1);
}

// kvsf of the solid.
pub fn mvsf_inverse(s: usize) -> Operator
    requires { s < 65536 }
    ensures { result ≡ mvsf_inverse s }
{
    with_number(blank(2, 1), 0, s)
}

// The least face of solid s; 0 where it has none.
pub fn face_in(links: &[u16], sh: Shape, s: usize) -> usize
    requires { sh.faces < 65536 }
    ensures { (result ≡ face_in sh links.now s) × (result < 65536) }
{
    least_naming_one(links, solids_of_faces(sh), s)
}

// Solid s as kvsf takes it: its least face, that face's outer loop and the vertex at which this is isolated. Any s is
// taken; all four numbers fit a word where s does.
pub fn lone_solid(links: &[u16], sh: Shape, s: usize) -> LoneSolid
    requires { sh.faces < 65536 }
    ensures any { IsLoneOfAny sh links.now s result }
    ensures small { s < 65536 → IsLone sh links.now s result }
{
    let face = face_in(links, sh, s);
    let outer = face_outer(links, sh, face);
    let vertex = loop_isolated(links, sh, outer);
    LoneSolid {
        solid: s,
        face,
        outer,
        vertex,
    }
}

// How many faces solid s has.
pub fn faces_in(links: &[u16], sh: Shape, s: usize) -> usize
    requires { sh.faces < 65536 }
    ensures { (result ≡ faces_in sh links.now s) × (result < 65536) }
{
    count_naming(links, solids_of_faces(sh), s)
}

// The least face of solid s behind face f; 0 where none follows.
fn face_after(links: &[u16], sh: Shape, s: usize, f: usize) -> usize
    requires { (sh.faces < 65536) × (f < 65536) }
    ensures { result ≡ face_after sh links.now s f }
{
    least(f + 1, sh.faces as usize, |g| face_solid(links, sh, g) == s).unwrap_or(0)
}

// The faces are gone through once: up to the least of s, then on to another one.
pub fn kvsf_fits(links: &[u16], counts: &[u16; ITEM_PLACES], sh: Shape, s: usize) -> bool
    requires small { Small sh }
    requires counted { Counted sh links.now counts.now }
    ensures { result ≡ kvsf_test sh links.now s }
{
    let f = face_in(links, sh, s);
    f != 0
        && face_after(links, sh, s, f) == 0
        && loops_kept(links, counts, sh, f) == 1
        && loop_isolated(links, sh, face_outer(links, sh, f)) != 0
}

// The solid goes out of the links.
pub fn kvsf_links(links: &mut [u16], sh: Shape, t: LoneSolid)
    requires { (t.solid < 65536) × (t.face < 65536) × (t.outer < 65536) × (t.vertex < 65536) }
    ensures { links.new ≡ kvsf_links sh links.old t.solid t.face t.outer t.vertex }
{
    set_solid_used(links, sh, t.solid, 0);
    put_face(links, sh, t.face, 0, 0);
    put_loop(links, sh, t.outer, 0, 0, 0);
    set_vertex_used(links, sh, t.vertex, 0);
}

// mvsf of the solid, with its vertex's point.
pub fn kvsf_inverse(points: &[i32], t: LoneSolid) -> Operator
    requires { (t.solid < 65536) × (t.face < 65536) × (t.outer < 65536) × (t.vertex < 65536) }
    ensures { result ≡ kvsf_inverse points.now t.solid t.face t.outer t.vertex }
{
    let a = with_number(blank(1, 7), 0, t.solid);
    let b = with_number(a, 1, t.face);
    let c = with_number(b, 2, t.outer);
    let d = with_number(c, 3, t.vertex);
    with_point(d, 4, points, t.vertex)
}

#[cfg(test)]
mod tests {
    use super::*;
    use layout::shape::shape_of;

    // Capacities 2, 3, 4, 1, 5. Solid 1 has faces 2 and 3; face 2 has loop 4, isolated at vertex 5, and face 3 has loop
    // 3, at vertex 1. Solid 2 is free. 65,536 does not fit a word, so no face names it.
    #[test]
    fn finds_what_a_solid_has(rt: HostRuntime) {
        let links = [
            2u16, 3, 4, 1, 5, 1, 0, 0, 0, 1, 4, 1, 3, 0, 0, 0, 0, 0, 0, 3, 0, 1, 2, 0, 5, 0, 0, 0,
            0, 0, 0, 0, 0, 1, 0, 0, 0, 1,
        ];
        let sh = shape_of(&links);
        for (s, face, outer, vertex) in [(1, 2, 4, 5), (2, 0, 0, 0), (65536, 0, 0, 0)] {
            let t = lone_solid(&links, sh, s);
            assert_eq!(rt; t.solid, s);
            assert_eq!(rt; t.face, face, "of {s}");
            assert_eq!(rt; t.outer, outer, "of {s}");
            assert_eq!(rt; t.vertex, vertex, "of {s}");
        }
    }
}
