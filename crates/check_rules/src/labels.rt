// The tests of one solid and of one vertex that ask what other records name it: a pass over those records has filled an
// array before.
ghost use Rattle.std.specs.Prelude.{◌≡◌, ◌≤◌};
ghost use Rattle.bounds.specs.Bounds.{most_items};
ghost use Rattle.check_rules.specs.Labels.{solid_named_by, vertex_either_by};

use bounds::ITEM_PLACES;
use layout::columns::{solid_used, vertex_used};
use layout::shape::Shape;

// Solid n is free or has a least face.
pub fn solid_names(links: &[u16], sh: Shape, faces: &[u16; ITEM_PLACES], n: usize) -> bool
    requires { n ≤ most_items }
    ensures { result ≡ solid_named_by sh links.now faces.now n }
{
    if solid_used(links, sh, n) == 0 {
        return true;
    }
    faces[n] != 0
}

// Vertex n is free, or its word is 1 plus the number of half-edges that start there, and it is isolated in one loop and
// starts none, or isolated in none and starts some.
pub fn vertex_either(
    links: &[u16],
    sh: Shape,
    isolated: &[u16; ITEM_PLACES],
    starts: &[u16; ITEM_PLACES],
    n: usize,
) -> bool
    requires { n ≤ most_items }
    ensures { result ≡ vertex_either_by sh links.now isolated.now starts.now n }
{
    let u = vertex_used(links, sh, n);
    if u == 0 {
        return true;
    }
    let c = isolated[n];
    let k = usize::from(starts[n]);
    if u != 1 + k {
        return false;
    }
    if c == 1 {
        return k == 0;
    }
    (c == 0) & (k != 0)
}
