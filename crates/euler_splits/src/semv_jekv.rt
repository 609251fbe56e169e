// An edge divided by a new vertex (semv, operator 11), and two edges at a vertex joined (jekv, operator 12).
ghost use Rattle.std.specs.Prelude.{◌≡◌, ℕ, ◌<◌, ◌≤◌};
ghost use Rattle.euler.specs.Surgery.{insert_after};
ghost use Rattle.euler.specs.EdgeOperators.{semv_links, semv_inverse, jekv_test, jekv_links, jekv_inverse};
ghost use Rattle.euler_splits.specs.Parts.{join_halves};

use euler::records::{Half, way_of};
use euler_edges::parts::{clear_edge, renew_sides, with_three};
use euler_surgery::points::with_point;
use euler_surgery::records::put_half;
use euler_surgery::surgery::{set_between, tie_halves};
use euler_walks::walks::lower;
use layout::columns::{
    loop_first, loop_of, next_of, prev_of, set_start, set_vertex_used, start_of,
};
use layout::mates::{edge_of, mate_of};
use layout::shape::Shape;
use script::{Operator, blank, with_number};

// Half-edge n from vertex v in loop l after k.
fn insert_after(links: &mut [u16], sh: Shape, k: usize, n: usize, v: usize, l: usize)
    requires { (k < 65536) × (n < 65536) × (v < 65536) × (l < 65536) }
    ensures { links.new ≡ insert_after sh links.old k n v l }
{
    let o = next_of(links, sh, k);
    let new = Half {
        start: v,
        owner: l,
        next: o,
        prev: k,
    };
    put_half(links, sh, n, new);
    set_between(links, sh, k, n, o);
}

// After k comes n, from v; before k's mate, which now starts at v, comes n's mate. What comes before k's mate is read
// when n is in, since next of k may be the mate.
pub fn semv_links(links: &mut [u16], sh: Shape, k: usize, n: usize, v: usize)
    requires { (k < 65535) × (n < 65535) × (v < 65536) }
    ensures { links.new ≡ semv_links sh links.old k n v }
{
    let km = mate_of(k);
    let nm = mate_of(n);
    let l = loop_of(links, sh, k);
    let o = loop_of(links, sh, km);
    let u = start_of(links, sh, km);
    let first = loop_first(links, sh, l);
    let second = loop_first(links, sh, o);
    let new = lower(n, nm);
    let low = lower(first, new);
    let low2 = lower(second, new);
    insert_after(links, sh, k, n, v, l);
    let p = prev_of(links, sh, km);
    insert_after(links, sh, p, nm, u, o);
    set_start(links, sh, km, v);
    renew_sides(links, sh, l, low, o, low2, k);
    set_vertex_used(links, sh, v, 1);
}

pub fn semv_inverse(k: usize) -> Operator
    requires { k < 65536 }
    ensures { result ≡ semv_inverse k }
{
    with_number(blank(12, 1), 0, k)
}

// Next of k is of another edge, and next of its mate is k's mate.
pub fn jekv_fits(links: &[u16], sh: Shape, k: usize) -> bool
    requires { k < 65536 }
    ensures { result ≡ jekv_test sh links.now k }
{
    let n = next_of(links, sh, k);
    edge_of(n) != edge_of(k) && next_of(links, sh, mate_of(n)) == mate_of(k)
}

// n's edge taken out: k is followed by what follows n; then what comes before n's mate, which may be k, by k's mate,
// which starts where n's mate did.
fn join_halves(links: &mut [u16], sh: Shape, k: usize, n: usize)
    requires { (k < 65535) × (n < 65536) }
    ensures { links.new ≡ join_halves sh links.old k n }
{
    let km = mate_of(k);
    let nm = mate_of(n);
    let u = start_of(links, sh, nm);
    let o = next_of(links, sh, n);
    tie_halves(links, sh, k, o);
    let p = prev_of(links, sh, nm);
    tie_halves(links, sh, p, km);
    set_start(links, sh, km, u);
}

// The edge and the start of n, next of k, killed.
pub fn jekv_links(links: &mut [u16], sh: Shape, k: usize, n: usize)
    requires { (k < 65535) × (n < 65536) }
    ensures { links.new ≡ jekv_links sh links.old k n }
{
    let km = mate_of(k);
    let l = loop_of(links, sh, k);
    let o = loop_of(links, sh, km);
    let v = start_of(links, sh, n);
    let first = loop_first(links, sh, l);
    let second = loop_first(links, sh, o);
    join_halves(links, sh, k, n);
    clear_edge(links, sh, n);
    renew_sides(links, sh, l, first, o, second, k);
    set_vertex_used(links, sh, v, 0);
}

pub fn jekv_inverse(links: &[u16], points: &[i32], sh: Shape, k: usize, n: usize) -> Operator
    requires { (k < 65536) × (n < 65536) }
    ensures { result ≡ jekv_inverse sh links.now points.now k n }
{
    let v = start_of(links, sh, n);
    let e = edge_of(n);
    let w = way_of(n);
    let divided = with_three(blank(11, 7), 0, k, e, v);
    with_point(with_number(divided, 3, w), 4, points, v)
}
