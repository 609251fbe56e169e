// The numbers of loops of all faces, face f's at place f of an array beside the table.
ghost use Rattle.std.specs.Prelude.{◌≡◌, ℕ, ◌<◌, ◌≤◌, length};
ghost use Rattle.bounds.specs.Bounds.{item_places};
ghost use Rattle.layout.specs.Small.{Small};
ghost use Rattle.euler.specs.Queries.{loops_in};
ghost use Rattle.euler_counts.specs.Counts.{Counted, lowered, raised};

use bounds::{ITEM_PLACES, MOST_ITEMS};
use euler::faces::loops_in;
use layout::columns::loop_face;
use layout::shape::Shape;

// How many loops face f has, by its number in the array; what no table has for a face is counted.
pub fn loops_kept(links: &[u16], counts: &[u16; ITEM_PLACES], sh: Shape, f: usize) -> usize
    requires small { Small sh }
    requires counted { Counted sh links.now counts.now }
    ensures { (result ≡ loops_in sh links.now f) × (result < 65536) }
{
    if (1..=MOST_ITEMS).contains(&f) {
        counts[f] as usize
    } else {
        loops_in(links, sh, f)
    }
}

// Face f has one loop less.
pub fn lower_count(counts: &mut [u16; ITEM_PLACES], f: usize)
    ensures { counts.new ≡ lowered counts.old f }
{
    if (1..=MOST_ITEMS).contains(&f) {
        counts[f] = counts[f].saturating_sub(1);
    }
}

// Face f has one loop more.
pub fn raise_count(counts: &mut [u16; ITEM_PLACES], f: usize)
    ensures { counts.new ≡ raised counts.old f }
{
    if (1..=MOST_ITEMS).contains(&f) {
        counts[f] = counts[f].saturating_add(1);
    }
}

// All loops counted.
pub fn fill_counts(links: &[u16], sh: Shape, counts: &mut [u16; ITEM_PLACES])
    requires { Small sh }
    ensures { (Counted sh links.now counts.new) × (length counts.new ≡ item_places) }
{
    *counts = [0u16; ITEM_PLACES];
    for l in 0..sh.loops as usize {
        let f = loop_face(links, sh, l + 1);
        raise_count(counts, f);
    }
}
