// An edge with a new vertex at its end: made (mev, operator 3) and killed (kev, operator 4).
ghost use Rattle.std.specs.Prelude.{◌≡◌, ℕ, ◌<◌, ◌≤◌};
ghost use Rattle.euler.specs.EdgeOperators.{mev_test, mev_links, mev_inverse, kev_test, kev_links, kev_inverse};

use euler::records::{Half, corner_vertex, is_corner, way_of};
use euler_edges::parts::{half_at, with_three};
use euler_surgery::points::with_point;
use euler_surgery::surgery::{edge_in, edge_out};
use euler_walks::walks::{lower, renew_loop};
use layout::columns::{loop_first, next_of, prev_of, set_vertex_used};
use layout::mates::{edge_of, mate_of};
use layout::shape::Shape;
use script::{Operator, blank, with_number};

// (l, h) is a corner.
pub fn mev_fits(links: &[u16], sh: Shape, l: usize, h: usize) -> bool
    requires { (l ≤ 65536) × (h ≤ 65536) }
    ensures { result ≡ mev_test sh links.now l h }
{
    is_corner(links, sh, l, h)
}

// Half-edge k from the corner's vertex to v, then its mate, both just before h. At a lone corner the two follow each
// other.
pub fn mev_links(links: &mut [u16], sh: Shape, l: usize, h: usize, k: usize, v: usize)
    requires { (l < 65536) × (h < 65536) × (k < 65535) × (v < 65536) }
    ensures { links.new ≡ mev_links sh links.old l h k v }
{
    let m = mate_of(k);
    let u = corner_vertex(links, sh, l, h);
    let before = prev_of(links, sh, h);
    let (p, n) = if h == 0 { (m, k) } else { (before, h) };
    let out = Half {
        start: u,
        owner: l,
        next: m,
        prev: p,
    };
    let back = Half {
        start: v,
        owner: l,
        next: n,
        prev: k,
    };
    let first = loop_first(links, sh, l);
    let low = lower(first, lower(k, m));
    edge_in(links, sh, k, out, back);
    renew_loop(links, sh, l, low, k, 0);
    set_vertex_used(links, sh, v, 1);
}

pub fn mev_inverse(k: usize) -> Operator
    requires { k < 65536 }
    ensures { result ≡ mev_inverse k }
{
    with_number(blank(4, 1), 0, k)
}

// Next of k is its mate.
pub fn kev_fits(links: &[u16], sh: Shape, k: usize) -> bool
    requires { k < 65536 }
    ensures { result ≡ kev_test sh links.now k }
{
    let m = mate_of(k);
    let n = next_of(links, sh, k);
    n == m
}

// The edge of k and the mate's start killed. Where nothing else is left of the loop, it is isolated at k's start.
pub fn kev_links(links: &mut [u16], sh: Shape, k: usize)
    requires { k < 65535 }
    ensures { links.new ≡ kev_links sh links.old k }
{
    let m = mate_of(k);
    let a = half_at(links, sh, k);
    let b = half_at(links, sh, m);
    let rest = if b.next == k { 0 } else { b.next };
    let low = loop_first(links, sh, a.owner);
    edge_out(links, sh, k, a.prev, b.next, b.prev, a.next);
    renew_loop(links, sh, a.owner, low, rest, a.start);
    set_vertex_used(links, sh, b.start, 0);
}

pub fn kev_inverse(links: &[u16], points: &[i32], sh: Shape, k: usize) -> Operator
    requires { k < 65535 }
    ensures { result ≡ kev_inverse sh links.now points.now k }
{
    let m = mate_of(k);
    let a = half_at(links, sh, k);
    let b = half_at(links, sh, m);
    let h = if b.next == k { 0 } else { b.next };
    let e = edge_of(k);
    let w = way_of(k);
    let corner = with_three(blank(3, 8), 0, a.owner, h, e);
    let new = with_number(with_number(corner, 3, b.start), 4, w);
    with_point(new, 5, points, b.start)
}
