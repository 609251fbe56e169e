// Rules 2 and 3, one item at a time: every number held names an item in use, a face's outer loop names that face,
// a loop has either a first half-edge or an isolated vertex.
ghost use Rattle.std.specs.Prelude.{◌≡◌, ℕ, ◌<◌};
ghost use Rattle.check_items.specs.Rules.{face_names, loop_names, half_names, loop_either};

use layout::columns::{
    face_outer, face_solid, loop_face, loop_first, loop_isolated, loop_of, next_of, prev_of,
    solid_used, start_of, vertex_used,
};
use layout::shape::Shape;

// Face n is free, or its solid is in use and its outer loop names it.
pub fn face_names(links: &[u16], sh: Shape, n: usize) -> bool
    requires { n < 65536 }
    ensures { result ≡ face_names sh links.now n }
{
    let s = face_solid(links, sh, n);
    let used = solid_used(links, sh, s);
    let back = loop_face(links, sh, face_outer(links, sh, n));
    (s == 0) | ((used != 0) & (back == n))
}

// Loop n is free, or its face and what it has of first half-edge and isolated vertex are in use.
pub fn loop_names(links: &[u16], sh: Shape, n: usize) -> bool
    requires { n < 65536 }
    ensures { result ≡ loop_names sh links.now n }
{
    let f = loop_face(links, sh, n);
    let k = loop_first(links, sh, n);
    let v = loop_isolated(links, sh, n);
    let face = face_solid(links, sh, f);
    let half = start_of(links, sh, k);
    let vertex = vertex_used(links, sh, v);
    (f == 0) | ((face != 0) & ((k == 0) | (half != 0)) & ((v == 0) | (vertex != 0)))
}

// Half-edge n is free, or its start, loop, next and previous are in use.
pub fn half_names(links: &[u16], sh: Shape, n: usize) -> bool
    requires { n < 65536 }
    ensures { result ≡ half_names sh links.now n }
{
    let v = start_of(links, sh, n);
    let vertex = vertex_used(links, sh, v);
    let face = loop_face(links, sh, loop_of(links, sh, n));
    let next = start_of(links, sh, next_of(links, sh, n));
    let prev = start_of(links, sh, prev_of(links, sh, n));
    (v == 0) | ((vertex != 0) & (face != 0) & (next != 0) & (prev != 0))
}

// Loop n is free, or has a first half-edge or an isolated vertex, and not both.
pub fn loop_either(links: &[u16], sh: Shape, n: usize) -> bool
    requires { n < 65536 }
    ensures { result ≡ loop_either sh links.now n }
{
    let f = loop_face(links, sh, n);
    let k = loop_first(links, sh, n);
    let v = loop_isolated(links, sh, n);
    (f == 0) | ((k != 0) & (v == 0) | (k == 0) & (v != 0))
}
