// Which of a solid's vertices each vertex is, counted from 1: an array with a place for each vertex, 0 for those of
// other solids. One pass over the half-edges marks the solid's vertices, one over the vertices counts them.
ghost use Rattle.std.specs.Prelude.{◌≡◌, ℕ, ◌+◌, ◌*◌, ◌≤◌, ◌<◌, eqb, length, get_or};
ghost use Rattle.laws.specs.Bools.{pick};
ghost use Rattle.bounds.specs.Bounds.{most_items, item_places};
ghost use Rattle.layout.specs.Layout.{face_solid, start_of, side};
ghost use Rattle.layout.specs.Small.{Small};
ghost use Rattle.wavefront_entry.specs.RankLaws.{marked_at, numbered, MarkedTo, CountedTo, Ranked};

use bounds::{ITEM_PLACES, MOST_ITEMS};
use layout::columns::{face_solid, side_of, start_of};
use layout::shape::Shape;

// The start of half-edge k, where the half-edge is one of solid s; else 0.
fn own_start(links: &[u16], sh: Shape, s: usize, k: usize) -> usize
    requires { k ≤ 65536 }
    ensures { result ≡ pick (eqb (face_solid sh links.now (side sh links.now k)) s)
        (start_of sh links.now k) 0 }
{
    if face_solid(links, sh, side_of(links, sh, k)) == s {
        return start_of(links, sh, k);
    }
    0
}

// Vertex v is marked; 0 is none.
fn mark(ranks: &mut [u16; ITEM_PLACES], v: usize)
    ensures { ranks.new ≡ marked_at ranks.old v }
{
    if v == 0 {
        return;
    }
    if v > MOST_ITEMS {
        return;
    }
    ranks[v] = 1;
}

// The solid's vertices are marked.
fn mark_vertices(links: &[u16], sh: Shape, s: usize, ranks: &mut [u16; ITEM_PLACES])
    requires { Small sh }
    ensures { MarkedTo sh links.now s (2 * sh.edges) ranks.new }
{
    *ranks = [0u16; ITEM_PLACES];
    let n = 2 * (sh.edges as usize);
    for k in 0..n {
        let v = own_start(links, sh, s, k + 1);
        mark(ranks, v);
    }
}

// Vertex v, where it is marked, is the next one after the first `last`; how many there are then.
fn number(ranks: &mut [u16; ITEM_PLACES], v: usize, last: usize) -> usize
    requires { (v ≤ most_items) × (last < most_items) × (length ranks.old ≡ item_places) }
    ensures { (ranks.new ≡ numbered ranks.old v (last + 1))
        × (result ≡ pick (eqb (get_or ranks.old v 0) 0) last (last + 1)) }
{
    if ranks[v] == 0 {
        return last;
    }
    ranks[v] = (last + 1) as u16;
    last + 1
}

// The marked vertices of 1 to n are counted.
fn count_vertices(ranks: &mut [u16; ITEM_PLACES], n: usize)
    requires { (n ≤ most_items) × (length ranks.old ≡ item_places) }
    ensures { CountedTo ranks.old n ranks.new }
{
    let mut last: usize = 0;
    for v in 0..n {
        last = number(ranks, v + 1, last);
    }
}

// The ranks of the vertices of solid s.
pub fn rank_vertices(links: &[u16], sh: Shape, s: usize, ranks: &mut [u16; ITEM_PLACES])
    requires { Small sh }
    ensures { Ranked sh links.now s ranks.new }
{
    mark_vertices(links, sh, s, ranks);
    count_vertices(ranks, sh.vertices as usize);
}
