// An edge that divides a loop, with a new face on one side: made (mef, operator 5) and killed (kef, operator 6).
ghost use Rattle.std.specs.Prelude.{◌≡◌, ℕ, ◌<◌, ◌≤◌};
ghost use Rattle.layout.specs.Small.{Small};
ghost use Rattle.euler_counts.specs.Counts.{Counted};
ghost use Rattle.euler.specs.EdgeOperators.{mef_test, mef_links, mef_inverse, kef_test, kef_links, kef_inverse};
ghost use Rattle.euler_cuts.specs.Parts.{mef_in, rest_of, kef_out};

use bounds::ITEM_PLACES;
use euler::records::{Half, corner_vertex, is_corner, way_of};
use euler_counts::counts::loops_kept;
use euler_edges::parts::{half_at, renew_sides, with_three};
use euler_surgery::records::{put_face, put_loop};
use euler_surgery::surgery::{edge_in, edge_out};
use euler_walks::walks::{lower, relabel_run, renew_loop};
use layout::columns::{face_solid, loop_face, loop_first, prev_of, side_of};
use layout::mates::{edge_of, mate_of};
use layout::shape::Shape;
use script::{Operator, blank, with_number};

// (l, h1) and (l, h2) are corners; ways 2 and 3 need h1 = h2, not 0.
pub fn mef_fits(links: &[u16], sh: Shape, l: usize, h1: usize, h2: usize, w: usize) -> bool
    requires { (l ≤ 65536) × (h1 ≤ 65536) × (h2 ≤ 65536) }
    ensures { result ≡ mef_test sh links.now l h1 h2 w }
{
    is_corner(links, sh, l, h1) && is_corner(links, sh, l, h2) && (w < 2 || (h1 == h2 && h1 != 0))
}

// Half-edge a from corner (l, h1) to (l, h2), its mate in l2. The run between the corners still names l.
// With h1 = h2 one of the two halves is alone in its loop: the mate, or by ways 2 and 3 a; at a lone corner both are.
fn mef_edge(
    links: &mut [u16],
    sh: Shape,
    l: usize,
    h1: usize,
    h2: usize,
    a: usize,
    l2: usize,
    w: usize,
)
    requires { (l < 65536) × (h1 < 65536) × (h2 < 65536) × (a < 65535) × (l2 < 65536) }
    ensures { links.new ≡ mef_in sh links.old l h1 h2 a l2 w }
{
    let b = mate_of(a);
    let u = corner_vertex(links, sh, l, h1);
    let v = corner_vertex(links, sh, l, h2);
    let p = prev_of(links, sh, h1);
    let q = prev_of(links, sh, h2);
    let a_alone = (h1 == h2) & ((h1 == 0) | (2 <= w));
    let b_alone = (h1 == h2) & !(2 <= w);
    let (next, prev) = if a_alone { (a, a) } else { (h2, p) };
    let there = Half {
        start: u,
        owner: l,
        next,
        prev,
    };
    let (next, prev) = if b_alone { (b, b) } else { (h1, q) };
    let back = Half {
        start: v,
        owner: l2,
        next,
        prev,
    };
    edge_in(links, sh, a, there, back);
}

// Loop l keeps previous of h1, a, h2 onward; l2 of the new face f, in the same solid, has h1 up to before h2, then a's
// mate.
pub fn mef_links(
    links: &mut [u16],
    sh: Shape,
    l: usize,
    h1: usize,
    h2: usize,
    a: usize,
    f: usize,
    l2: usize,
    w: usize,
)
    requires { (l < 65536) × (h1 < 65536) × (h2 < 65536) × (a < 65535) × (f < 65536) × (l2 < 65536) }
    ensures { links.new ≡ mef_links sh links.old l h1 h2 a f l2 w }
{
    let b = mate_of(a);
    let old = loop_face(links, sh, l);
    let s = face_solid(links, sh, old);
    let from = if h1 == h2 && w < 2 { b } else { h1 };
    let first = loop_first(links, sh, l);
    let low = lower(first, lower(a, b));
    mef_edge(links, sh, l, h1, h2, a, l2, w);
    relabel_run(links, sh, from, b, l2);
    put_loop(links, sh, l2, f, 0, 0);
    put_face(links, sh, f, s, l2);
    renew_sides(links, sh, l, low, l2, low, a);
}

// b is the half-edge in the new face.
pub fn mef_inverse(b: usize) -> Operator
    requires { b < 65536 }
    ensures { result ≡ mef_inverse b }
{
    with_number(blank(6, 1), 0, b)
}

// k's loop is the only one of its face, and the mate's face is another.
pub fn kef_fits(links: &[u16], counts: &[u16; ITEM_PLACES], sh: Shape, k: usize) -> bool
    requires k_bound { k < 65536 }
    requires small { Small sh }
    requires counted { Counted sh links.now counts.now }
    ensures { result ≡ kef_test sh links.now k }
{
    let here = side_of(links, sh, k);
    loops_kept(links, counts, sh, here) == 1 && side_of(links, sh, mate_of(k)) != here
}

// What follows k, or where k is alone what follows m, or 0 where both are; n is next of k, and o next of m.
fn rest_of(k: usize, n: usize, m: usize, o: usize) -> usize
    requires { (n < 65536) × (o < 65536) }
    ensures { (result ≡ rest_of k n m o) × (result < 65536) }
{
    if n != k {
        n
    } else if o != m {
        o
    } else {
        0
    }
}

// The edge of k killed, where k has the words a and its mate b: the rest of k's loop goes between the neighbours of the
// mate, and where one rest is empty the other closes on itself.
fn kef_edge(links: &mut [u16], sh: Shape, k: usize, a: Half, b: Half)
    requires k_bound { k < 65535 }
    requires next_bound { (a.next < 65536) × (a.prev < 65536) × (b.next < 65536) × (b.prev < 65536) }
    ensures { links.new ≡ kef_out sh links.old k a b }
{
    let m = mate_of(k);
    let (p, o) = if b.next == m {
        (a.prev, a.next)
    } else {
        (b.prev, b.next)
    };
    let (n, q) = if a.next == k {
        (b.next, b.prev)
    } else {
        (a.next, a.prev)
    };
    edge_out(links, sh, k, p, n, q, o);
}

// Edge, face and loop of k killed; the rest of that loop takes the mate's place. Where nothing is left of the two
// loops, the one that stays is isolated.
pub fn kef_links(links: &mut [u16], sh: Shape, k: usize)
    requires { k < 65535 }
    ensures { links.new ≡ kef_links sh links.old k }
{
    let m = mate_of(k);
    let a = half_at(links, sh, k);
    let b = half_at(links, sh, m);
    let f = loop_face(links, sh, a.owner);
    let rest = rest_of(k, a.next, m, b.next);
    let first = loop_first(links, sh, a.owner);
    let second = loop_first(links, sh, b.owner);
    let low = lower(first, second);
    relabel_run(links, sh, a.next, k, b.owner);
    kef_edge(links, sh, k, a, b);
    put_face(links, sh, f, 0, 0);
    put_loop(links, sh, a.owner, 0, 0, 0);
    renew_loop(links, sh, b.owner, low, rest, a.start);
}

// The corners are the ends of the two rests; where only k's loop has a rest, it was the whole: way 2 or 3.
pub fn kef_inverse(links: &[u16], sh: Shape, k: usize) -> Operator
    requires { k < 65535 }
    ensures { result ≡ kef_inverse sh links.now k }
{
    let m = mate_of(k);
    let a = half_at(links, sh, k);
    let b = half_at(links, sh, m);
    let f = loop_face(links, sh, a.owner);
    let h1 = rest_of(k, a.next, m, b.next);
    let h2 = rest_of(m, b.next, k, a.next);
    let whole = b.next == m && a.next != k;
    let w = way_of(m) + if whole { 2 } else { 0 };
    let e = edge_of(k);
    let op = with_three(blank(5, 7), 0, b.owner, h1, h2);
    with_number(with_three(op, 3, e, f, a.owner), 6, w)
}
