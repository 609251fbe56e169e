// An edge goes in, an edge comes out: all that mev, kev, mef, kef, kemr and mekr change in the cycles. (semv and jekv
// put in and take out one half-edge at a time.)
ghost use Rattle.std.specs.Prelude.{◌≡◌, ℕ, ◌<◌, ◌≤◌};
ghost use Rattle.euler.specs.Surgery.{tie, between, edge_in, edge_out};

use crate::records::{clear_half, put_half};
use euler::records::Half;
use layout::columns::{set_next, set_prev};
use layout::mates::mate_of;
use layout::shape::Shape;

// a is followed by b.
pub fn tie_halves(links: &mut [u16], sh: Shape, a: usize, b: usize)
    requires { (a < 65536) × (b < 65536) }
    ensures { links.new ≡ tie sh links.old a b }
{
    set_next(links, sh, a, b);
    set_prev(links, sh, b, a);
}

// k stands between p and n, as these see it.
pub fn set_between(links: &mut [u16], sh: Shape, p: usize, k: usize, n: usize)
    requires { (p < 65536) × (k < 65536) × (n < 65536) }
    ensures { links.new ≡ between sh links.old p k n }
{
    set_next(links, sh, p, k);
    set_prev(links, sh, n, k);
}

// Half-edge k with the words a, and its mate with the words b, each put between its neighbours.
pub fn edge_in(links: &mut [u16], sh: Shape, k: usize, a: Half, b: Half)
    requires k_bound { k < 65535 }
    requires start_bound { (a.start < 65536) × (a.owner < 65536) × (a.next < 65536) × (a.prev < 65536) }
    requires start_bound_2 { (b.start < 65536) × (b.owner < 65536) × (b.next < 65536) × (b.prev < 65536) }
    ensures { links.new
        ≡ edge_in sh links.old k a.start a.owner a.next a.prev b.start b.owner b.next
        b.prev }
{
    let m = mate_of(k);
    put_half(links, sh, k, a);
    put_half(links, sh, m, b);
    set_between(links, sh, a.prev, k, a.next);
    set_between(links, sh, b.prev, m, b.next);
}

// The edge of k killed: p is followed by n, and q by o.
pub fn edge_out(links: &mut [u16], sh: Shape, k: usize, p: usize, n: usize, q: usize, o: usize)
    requires { (k < 65535) × (p < 65536) × (n < 65536) × (q < 65536) × (o < 65536) }
    ensures { links.new ≡ edge_out sh links.old k p n q o }
{
    let m = mate_of(k);
    tie_halves(links, sh, p, n);
    tie_halves(links, sh, q, o);
    clear_half(links, sh, k);
    clear_half(links, sh, m);
}
