// What a half-edge or a loop is asked during the take-down. Nothing has to be known of the table.
ghost use Rattle.std.specs.Prelude.{◌≡◌, ℕ, ◌<◌, ◌≤◌};
ghost use Rattle.layout.specs.Small.{Small};
ghost use Rattle.takedown.specs.Inversion.{outside, of_solid, in_ring, is_spur, is_crossed, is_ring_of};
ghost use Rattle.takedown.specs.Swift.{stray_ring};

use euler::faces::is_ring;
use layout::columns::{face_solid, loop_face, loop_of, next_of, side_of};
use layout::mates::mate_of;
use layout::shape::Shape;
use takedown_crossing::marks::crossed;

// Half-edge k lies outside the root, its mate in it.
pub fn is_outside(links: &[u16], sh: Shape, root: usize, k: usize) -> bool
    requires { k < 65536 }
    ensures { result ≡ outside sh links.now root k }
{
    let there = side_of(links, sh, mate_of(k));
    let here = side_of(links, sh, k);
    (there == root) & (here != root)
}

// Half-edge k is of solid s.
pub fn of_solid(links: &[u16], sh: Shape, s: usize, k: usize) -> bool
    requires { k < 65536 }
    ensures { result ≡ of_solid sh links.now s k }
{
    let f = side_of(links, sh, k);
    face_solid(links, sh, f) == s
}

// Half-edge k of solid s lies in a ring, its mate in another loop.
pub fn in_ring(links: &[u16], sh: Shape, s: usize, k: usize) -> bool
    requires { k < 65536 }
    ensures { result ≡ in_ring sh links.now s k }
{
    let here = of_solid(links, sh, s, k);
    let l = loop_of(links, sh, k);
    let ring = is_ring(links, sh, l);
    let other = loop_of(links, sh, mate_of(k));
    here & ring & (other != l)
}

// Half-edge k of solid s is followed by its mate.
pub fn is_spur(links: &[u16], sh: Shape, s: usize, k: usize) -> bool
    requires { k < 65536 }
    ensures { result ≡ is_spur sh links.now s k }
{
    let here = of_solid(links, sh, s, k);
    let next = next_of(links, sh, k);
    let m = mate_of(k);
    here & (next == m)
}

// Loop l is a ring of face f.
pub fn is_ring_of(links: &[u16], sh: Shape, f: usize, l: usize) -> bool
    requires { l ≤ 65536 }
    ensures { result ≡ is_ring_of sh links.now f l }
{
    let own = loop_face(links, sh, l);
    let ring = is_ring(links, sh, l);
    (own == f) & ring
}

// Loop l is a ring of a face of solid s other than the root.
pub fn is_stray(links: &[u16], sh: Shape, s: usize, root: usize, l: usize) -> bool
    requires { l ≤ 65536 }
    ensures { result ≡ stray_ring sh links.now s root l }
{
    let f = loop_face(links, sh, l);
    let own = face_solid(links, sh, f);
    let ring = is_ring(links, sh, l);
    (own == s) & (f != root) & ring
}

// Half-edge k is of solid s and crossed.
pub fn is_crossed(links: &[u16], sh: Shape, s: usize, k: usize) -> bool
    requires { (Small sh) × (k < 65536) }
    ensures { result ≡ is_crossed sh links.now s k }
{
    of_solid(links, sh, s, k) && crossed(links, sh, k)
}
