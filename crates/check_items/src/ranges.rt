// Rule 1, one item at a time: marks of solids, numbers and coordinates in range, free records zero, both halves of an
// edge in use or neither. Reading is total, so every test of an item is made, whatever the others say.
ghost use Rattle.std.specs.Prelude.{◌≡◌, ℕ, ◌<◌};
ghost use Rattle.check_items.specs.Rules.{solid_range, face_range, loop_range, half_range, vertex_range};
ghost use Rattle.check_items.specs.Parts.{goes_with, point_in, point_free};

use layout::columns::{
    face_outer, face_solid, loop_face, loop_first, loop_isolated, loop_of, next_of, prev_of,
    solid_used, start_of, vertex_used,
};
use layout::mates::mate_of;
use layout::points::{in_range, is_zero};
use layout::shape::Shape;

// The mark of solid n is 0 or 1.
pub fn solid_range(links: &[u16], sh: Shape, n: usize) -> bool
    requires { n < 65536 }
    ensures { result ≡ solid_range sh links.now n }
{
    solid_used(links, sh, n) <= 1
}

// The words of face n are in range, and both 0 or neither.
pub fn face_range(links: &[u16], sh: Shape, n: usize) -> bool
    requires { n < 65536 }
    ensures { result ≡ face_range sh links.now n }
{
    let s = face_solid(links, sh, n);
    let l = face_outer(links, sh, n);
    (s <= sh.solids as usize)
        & (l <= sh.loops as usize)
        & ((s == 0) & (l == 0) | (s != 0) & (l != 0))
}

// b is 0 where a is.
fn goes_with(a: usize, b: usize) -> bool
    ensures { result ≡ goes_with a b }
{
    if a != 0 {
        return true;
    }
    b == 0
}

// The words of loop n are in range, and all 0 where it is free.
pub fn loop_range(links: &[u16], sh: Shape, n: usize) -> bool
    requires { n < 65536 }
    ensures { result ≡ loop_range sh links.now n }
{
    let f = loop_face(links, sh, n);
    let k = loop_first(links, sh, n);
    let v = loop_isolated(links, sh, n);
    (f <= sh.faces as usize)
        & (k <= 2 * (sh.edges as usize))
        & (v <= sh.vertices as usize)
        & goes_with(f, k)
        & goes_with(f, v)
}

// The words of half-edge n are in range, and they and its mate's start are all 0 or none is.
pub fn half_range(links: &[u16], sh: Shape, n: usize) -> bool
    requires { n < 65536 }
    ensures { result ≡ half_range sh links.now n }
{
    let v = start_of(links, sh, n);
    let l = loop_of(links, sh, n);
    let a = next_of(links, sh, n);
    let b = prev_of(links, sh, n);
    let m = start_of(links, sh, mate_of(n));
    let top = 2 * (sh.edges as usize);
    (v <= sh.vertices as usize)
        & (l <= sh.loops as usize)
        & (a <= top)
        & (b <= top)
        & ((v == 0) & (l == 0) | (v != 0) & (l != 0))
        & ((v == 0) & (a == 0) | (v != 0) & (a != 0))
        & ((v == 0) & (b == 0) | (v != 0) & (b != 0))
        & ((v == 0) & (m == 0) | (v != 0) & (m != 0))
}

// The point of vertex n is in range.
fn point_in(points: &[i32], n: usize) -> bool
    requires { n < 65536 }
    ensures { result ≡ point_in points.now n }
{
    in_range(points, n, 0) & in_range(points, n, 1) & in_range(points, n, 2)
}

// The point of vertex n is zero where its word u is 0.
fn point_free(points: &[i32], n: usize, u: usize) -> bool
    requires { n < 65536 }
    ensures { result ≡ point_free points.now n u }
{
    if u != 0 {
        return true;
    }
    is_zero(points, n, 0) & is_zero(points, n, 1) & is_zero(points, n, 2)
}

// The point of vertex n is in range, and zero where the vertex is free. Rule 5 looks at the vertex's word.
pub fn vertex_range(links: &[u16], points: &[i32], sh: Shape, n: usize) -> bool
    requires { n < 65536 }
    ensures { result ≡ vertex_range sh links.now points.now n }
{
    let u = vertex_used(links, sh, n);
    point_in(points, n) & point_free(points, n, u)
}
