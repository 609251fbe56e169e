// Walks along next: a run given another loop, the least half-edge of a loop, a loop's first anew.
ghost use Rattle.std.specs.Prelude.{◌≡◌, ℕ, ◌*◌, ◌<◌, ◌≤◌};
ghost use Rattle.layout.specs.Layout.{next_of, set_loop};
ghost use Rattle.euler.specs.Surgery.{relabel, relabel_run, lower, first_from, renew};

use layout::columns::{loop_of, next_of, set_loop, set_loop_first, set_loop_isolated};
use layout::shape::Shape;

// Half-edge k is passed: it is given loop l where it sits, and what follows it is next. That is read first, so that the
// walk does not wait for the store.
fn pass_one(links: &mut [u16], sh: Shape, k: usize, l: usize) -> usize
    requires { (k ≤ 65536) × (l < 65536) }
    ensures links_after { links.new ≡ set_loop sh links.old k l }
    ensures value { (result ≡ next_of sh links.old k) × (result < 65536) }
{
    let next = next_of(links, sh, k);
    set_loop(links, sh, k, l);
    next
}

// The half-edges from `from` up to before stop are given loop l, one in each turn. At each turn those behind name l and
// nothing else has changed: the loop's invariant is `Walked`.
fn relabel_steps(links: &mut [u16], sh: Shape, fuel: usize, from: usize, stop: usize, l: usize)
    requires { (from ≤ 65536) × (l < 65536) }
    ensures { links.new ≡ relabel sh fuel links.old from stop l }
{
    let mut k = from;
    for _ in 0..fuel {
        if k == stop {
            return;
        }
        k = pass_one(links, sh, k, l);
    }
}

pub fn relabel_run(links: &mut [u16], sh: Shape, from: usize, stop: usize, l: usize)
    requires { (from ≤ 65536) × (l < 65536) }
    ensures { links.new ≡ relabel_run sh links.old from stop l }
{
    let fuel = 2 * sh.edges as usize;
    relabel_steps(links, sh, fuel, from, stop, l);
}

// The lesser of two half-edges; f may be 0, none.
pub fn lower(f: usize, k: usize) -> usize
    requires { (f < 65536) × (k < 65536) }
    ensures { (result ≡ lower f k) × (result < 65536) }
{
    if f == 0 { k } else { f.min(k) }
}

// The least half-edge that names loop l, where k names it and none below low does. The numbers from low up are tried,
// and with each trial goes one step along the cycle, keeping the least: whichever ends first has the answer.
pub fn first_from(links: &[u16], sh: Shape, l: usize, low: usize, k: usize) -> usize
    requires { k < 65536 }
    ensures { (result ≡ first_from sh links.now l low k) × (result < 65536) }
{
    let mut at = next_of(links, sh, k);
    let mut best = k;
    for j in low..k {
        let owner = loop_of(links, sh, j);
        if owner == l {
            return j;
        }
        if at == k {
            return best;
        }
        best = best.min(at);
        at = next_of(links, sh, at);
    }
    best
}

// Loop l has the cycle of half-edge k, no half-edge below low names it, and first is the least that does; where k is 0,
// first is 0 and l is isolated at vertex u.
pub fn renew_loop(links: &mut [u16], sh: Shape, l: usize, low: usize, k: usize, u: usize)
    requires { (l ≤ 65536) × (k < 65536) × (u < 65536) }
    ensures { links.new ≡ renew sh links.old l low k u }
{
    let first = first_from(links, sh, l, low, k);
    let isolated = if k == 0 { u } else { 0 };
    set_loop_first(links, sh, l, first);
    set_loop_isolated(links, sh, l, isolated);
}
