// Whole records of a table, stored: a face, a loop, a half-edge.
ghost use Rattle.std.specs.Prelude.{◌≡◌, ℕ, ◌<◌, ◌≤◌};
ghost use Rattle.layout.specs.Fields.{half_kind};
ghost use Rattle.layout.specs.Writes.{cleared, writes};
ghost use Rattle.euler.specs.Surgery.{put_face, put_loop, put_half};

use euler::records::Half;
use layout::columns::{
    set_face_outer, set_face_solid, set_loop, set_loop_face, set_loop_first, set_loop_isolated,
    set_next, set_prev, set_start,
};
use layout::shape::Shape;

// Face f: its solid and its outer loop.
pub fn put_face(links: &mut [u16], sh: Shape, f: usize, s: usize, l: usize)
    requires { (f ≤ 65536) × (s < 65536) × (l < 65536) }
    ensures { links.new ≡ put_face sh links.old f s l }
{
    set_face_solid(links, sh, f, s);
    set_face_outer(links, sh, f, l);
}

// Loop l: its face, its first half-edge and its isolated vertex.
pub fn put_loop(links: &mut [u16], sh: Shape, l: usize, f: usize, k: usize, v: usize)
    requires { (l ≤ 65536) × (f < 65536) × (k < 65536) × (v < 65536) }
    ensures { links.new ≡ put_loop sh links.old l f k v }
{
    set_loop_face(links, sh, l, f);
    set_loop_first(links, sh, l, k);
    set_loop_isolated(links, sh, l, v);
}

// Half-edge k.
pub fn put_half(links: &mut [u16], sh: Shape, k: usize, h: Half)
    requires { (k ≤ 65536) × (h.start < 65536) × (h.owner < 65536) × (h.next < 65536) × (h.prev < 65536) }
    ensures { links.new ≡ put_half sh links.old k h.start h.owner h.next h.prev }
{
    set_start(links, sh, k, h.start);
    set_loop(links, sh, k, h.owner);
    set_next(links, sh, k, h.next);
    set_prev(links, sh, k, h.prev);
}

// The record of half-edge k cleared.
pub fn clear_half(links: &mut [u16], sh: Shape, k: usize)
    requires { k ≤ 65536 }
    ensures { links.new ≡ writes sh (cleared half_kind k) links.old }
{
    put_half(
        links,
        sh,
        k,
        Half {
            start: 0,
            owner: 0,
            next: 0,
            prev: 0,
        },
    );
}
