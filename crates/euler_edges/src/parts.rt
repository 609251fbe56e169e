// What stands in more than one edge operator: a half-edge read whole, three operands at once, the loops on both sides
// of an edge anew, both halves of an edge cleared.
ghost use Rattle.std.specs.Prelude.{◌≡◌, ℕ, ◌<◌, ◌≤◌};
ghost use Rattle.euler_edges.specs.Parts.{IsHalf, with_three, renew_sides, clear_edge};

use euler::records::Half;
use euler_surgery::records::clear_half;
use euler_walks::walks::renew_loop;
use layout::columns::{loop_of, next_of, prev_of, start_of};
use layout::mates::mate_of;
use layout::shape::Shape;
use script::{Operator, with_number};

// The four words of half-edge k.
pub fn half_at(links: &[u16], sh: Shape, k: usize) -> Half
    requires { k ≤ 65536 }
    ensures { IsHalf sh links.now k result }
{
    let start = start_of(links, sh, k);
    let owner = loop_of(links, sh, k);
    let next = next_of(links, sh, k);
    let prev = prev_of(links, sh, k);
    Half {
        start,
        owner,
        next,
        prev,
    }
}

// The operator with a, b, c for the operands i, i + 1, i + 2.
pub fn with_three(op: Operator, i: usize, a: usize, b: usize, c: usize) -> Operator
    requires { (i < 6) × (a < 65536) × (b < 65536) × (c < 65536) }
    ensures { result ≡ with_three op i a b c }
{
    let first = with_number(op, i, a);
    let second = with_number(first, i + 1, b);
    with_number(second, i + 2, c)
}

// The loops l of half-edge k and o of its mate have their firsts anew.
pub fn renew_sides(
    links: &mut [u16],
    sh: Shape,
    l: usize,
    low: usize,
    o: usize,
    low2: usize,
    k: usize,
)
    requires { (l ≤ 65536) × (o ≤ 65536) × (k < 65535) }
    ensures { links.new ≡ renew_sides sh links.old l low o low2 k }
{
    let m = mate_of(k);
    renew_loop(links, sh, l, low, k, 0);
    renew_loop(links, sh, o, low2, m, 0);
}

// Both halves of n's edge cleared.
pub fn clear_edge(links: &mut [u16], sh: Shape, n: usize)
    requires { n < 65536 }
    ensures { links.new ≡ clear_edge sh links.old n }
{
    let m = mate_of(n);
    clear_half(links, sh, n);
    clear_half(links, sh, m);
}
