// An edge inside one loop, with a ring split off: killed (kemr, operator 7) and made (mekr, operator 8).
ghost use Rattle.std.specs.Prelude.{◌≡◌, ℕ, ◌<◌, ◌≤◌};
ghost use Rattle.euler.specs.EdgeOperators.{kemr_test, kemr_links, kemr_inverse, mekr_test, mekr_links, mekr_inverse};
ghost use Rattle.euler_bridges.specs.Parts.{mekr_in};

use euler::faces::is_ring;
use euler::records::{Half, corner_vertex, is_corner, way_of};
use euler_edges::parts::{half_at, with_three};
use euler_surgery::records::put_loop;
use euler_surgery::surgery::{edge_in, edge_out};
use euler_walks::walks::{lower, relabel_run, renew_loop};
use layout::columns::{loop_face, loop_first, loop_of, prev_of};
use layout::mates::{edge_of, mate_of};
use layout::shape::Shape;
use script::{Operator, blank, with_number};

// k and its mate lie in one loop.
pub fn kemr_fits(links: &[u16], sh: Shape, k: usize) -> bool
    requires { k < 65536 }
    ensures { result ≡ kemr_test sh links.now k }
{
    loop_of(links, sh, mate_of(k)) == loop_of(links, sh, k)
}

// The run after k up to the mate becomes ring l2 of k's face, isolated at k's end where it is empty; the run after the
// mate stays, isolated at k's start where it is empty.
pub fn kemr_links(links: &mut [u16], sh: Shape, k: usize, l2: usize)
    requires { (k < 65535) × (l2 < 65536) }
    ensures { links.new ≡ kemr_links sh links.old k l2 }
{
    let m = mate_of(k);
    let a = half_at(links, sh, k);
    let b = half_at(links, sh, m);
    let f = loop_face(links, sh, a.owner);
    let ring = if a.next == m { 0 } else { a.next };
    let rest = if b.next == k { 0 } else { b.next };
    let low = loop_first(links, sh, a.owner);
    relabel_run(links, sh, a.next, m, l2);
    edge_out(links, sh, k, a.prev, b.next, b.prev, a.next);
    put_loop(links, sh, l2, f, 0, 0);
    renew_loop(links, sh, l2, low, ring, b.start);
    renew_loop(links, sh, a.owner, low, rest, a.start);
}

// mekr of the edge.
pub fn kemr_inverse(links: &[u16], sh: Shape, k: usize, l2: usize) -> Operator
    requires { (k < 65535) × (l2 < 65536) }
    ensures { result ≡ kemr_inverse sh links.now k l2 }
{
    let m = mate_of(k);
    let a = half_at(links, sh, k);
    let b = half_at(links, sh, m);
    let h1 = if b.next == k { 0 } else { b.next };
    let h2 = if a.next == m { 0 } else { a.next };
    let e = edge_of(k);
    let w = way_of(k);
    let op = with_three(blank(8, 6), 0, a.owner, h1, l2);
    with_three(op, 3, h2, e, w)
}

// Two loops of one face, l2 a ring, not l; (l, h1) and (l2, h2) are corners.
pub fn mekr_fits(links: &[u16], sh: Shape, l: usize, h1: usize, l2: usize, h2: usize) -> bool
    requires { (l ≤ 65536) × (h1 ≤ 65536) × (l2 ≤ 65536) × (h2 ≤ 65536) }
    ensures { result ≡ mekr_test sh links.now l h1 l2 h2 }
{
    l != l2
        && loop_face(links, sh, l) == loop_face(links, sh, l2)
        && is_ring(links, sh, l2)
        && is_corner(links, sh, l, h1)
        && is_corner(links, sh, l2, h2)
}

// Half-edge k from corner (l, h1) to (l2, h2) and its mate back. The cycle of l2 still names l2.
fn mekr_edge(links: &mut [u16], sh: Shape, l: usize, h1: usize, l2: usize, h2: usize, k: usize)
    requires { (l < 65536) × (h1 < 65536) × (l2 < 65536) × (h2 < 65536) × (k < 65535) }
    ensures { links.new ≡ mekr_in sh links.old l h1 l2 h2 k }
{
    let m = mate_of(k);
    let u = corner_vertex(links, sh, l, h1);
    let v = corner_vertex(links, sh, l2, h2);
    let p = prev_of(links, sh, h1);
    let q = prev_of(links, sh, h2);
    let (before, after) = if h1 == 0 { (m, k) } else { (p, h1) };
    let (before2, after2) = if h2 == 0 { (k, m) } else { (q, h2) };
    let there = Half {
        start: u,
        owner: l,
        next: after2,
        prev: before,
    };
    let back = Half {
        start: v,
        owner: l,
        next: after,
        prev: before2,
    };
    edge_in(links, sh, k, there, back);
}

// Loop l has k, the cycle of l2 from h2, the mate, then h1 onward; l2 is killed.
pub fn mekr_links(links: &mut [u16], sh: Shape, l: usize, h1: usize, l2: usize, h2: usize, k: usize)
    requires { (l < 65536) × (h1 < 65536) × (l2 < 65536) × (h2 < 65536) × (k < 65535) }
    ensures { links.new ≡ mekr_links sh links.old l h1 l2 h2 k }
{
    let m = mate_of(k);
    let from = if h2 == 0 { m } else { h2 };
    let first = loop_first(links, sh, l);
    let second = loop_first(links, sh, l2);
    let low = lower(first, lower(second, lower(k, m)));
    mekr_edge(links, sh, l, h1, l2, h2, k);
    relabel_run(links, sh, from, m, l);
    put_loop(links, sh, l2, 0, 0, 0);
    renew_loop(links, sh, l, low, k, 0);
}

// kemr of the edge.
pub fn mekr_inverse(k: usize, l2: usize) -> Operator
    requires { (k < 65536) × (l2 < 65536) }
    ensures { result ≡ mekr_inverse k l2 }
{
    let a = with_number(blank(7, 2), 0, k);
    with_number(a, 1, l2)
}
