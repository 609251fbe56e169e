// Rules 4 and 6 as far as one half-edge or one loop can break them: next and previous undo each other, next of k starts
// where k's mate starts and names k's loop, no half-edge of a loop comes before its first, an edge's two sides lie in
// one solid.
ghost use Rattle.std.specs.Prelude.{◌≡◌, ℕ, ◌<◌, ◌≤◌};
ghost use Rattle.check_items.specs.Rules.{half_links, first_names, half_sides};
ghost use Rattle.check_items.specs.Parts.{first_low};

use layout::columns::{face_solid, loop_first, loop_of, next_of, prev_of, side_of, start_of};
use layout::mates::mate_of;
use layout::shape::Shape;

// The first half-edge of n's loop is at most n.
fn first_low(links: &[u16], sh: Shape, n: usize) -> bool
    requires { n < 65536 }
    ensures { result ≡ first_low sh links.now n }
{
    let first = loop_first(links, sh, loop_of(links, sh, n));
    first <= n
}

// Half-edge n is free, or joined to its neighbours as rule 4 says, and its loop has a first half-edge, which is at most
// n.
pub fn half_links(links: &[u16], sh: Shape, n: usize) -> bool
    requires { n < 65536 }
    ensures { result ≡ half_links sh links.now n }
{
    let v = start_of(links, sh, n);
    let l = loop_of(links, sh, n);
    let a = next_of(links, sh, n);
    let b = prev_of(links, sh, n);
    let first = loop_first(links, sh, l);
    let back = prev_of(links, sh, a);
    let forth = next_of(links, sh, b);
    let end = start_of(links, sh, mate_of(n));
    let start = start_of(links, sh, a);
    let next_loop = loop_of(links, sh, a);
    let low = first_low(links, sh, n);
    (v == 0) | ((back == n) & (forth == n) & (start == end) & (next_loop == l) & (first != 0) & low)
}

// The first half-edge of loop n, where it has one, names it.
pub fn first_names(links: &[u16], sh: Shape, n: usize) -> bool
    requires { n < 65536 }
    ensures { result ≡ first_names sh links.now n }
{
    let k = loop_first(links, sh, n);
    let l = loop_of(links, sh, k);
    (k == 0) | (l == n)
}

// Half-edge n is free, or its face and its mate's face lie in one solid.
pub fn half_sides(links: &[u16], sh: Shape, n: usize) -> bool
    requires { n < 65536 }
    ensures { result ≡ half_sides sh links.now n }
{
    let v = start_of(links, sh, n);
    if v == 0 {
        return true;
    }
    let here = face_solid(links, sh, side_of(links, sh, n));
    let there = face_solid(links, sh, side_of(links, sh, mate_of(n)));
    here == there
}
