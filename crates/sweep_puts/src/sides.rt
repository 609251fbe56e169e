// The sides of a loop: a mef over each corner.
ghost use Rattle.std.specs.Prelude.{◌≡◌, [], ◌∷◌, suc, ◌+◌, ◌*◌, ◌≤◌, ◌<◌, length};
ghost use Rattle.chains.specs.Series.{series};
ghost use Rattle.sweep_puts.specs.Laid.{Laid};
ghost use Rattle.sweep_puts.specs.SideLaws.{Low, names_in, end_in};
ghost use Rattle.sweeps.specs.Sweep.{side_at, only_side, sides_of};

use crate::free::FreeNumbers;
use crate::ops::{down_of, kef_size, mef_of, up_of};
use crate::place::{Place, put_one};
use bounds::ITEM_PLACES;

// Where side j of a loop with z + 1 corners ends: at the next riser, the last one at the first side's new edge.
fn end_of(edges: &[u16; ITEM_PLACES], z: usize, b: usize, j: usize) -> usize
    requires { (j ≤ z) × (b + z < 2048) × Low edges.now (2 * (b + suc z)) }
    ensures { (result ≡ end_in edges.now z b j) × (result ≤ 8193) }
{
    if j == z {
        return up_of(edges[2 * b + (z + 1)] as usize);
    }
    down_of(edges[2 * b + (j + 1)] as usize)
}

// The side over corner j.
fn put_side(
    numbers: FreeNumbers,
    l: usize,
    z: usize,
    b: usize,
    j: usize,
    out: &mut [u8],
    place: Place,
) -> Place
    requires l_bound { (l ≤ 4096) × (j ≤ z) × (b + z < 2048) × Low numbers.edges.now (2 * (b + suc z)) }
    requires at_in_bounds { (place.at + 27 ≤ length out.old) × (place.at ≤ 200000) × (place.room ≤ 200000) }
    ensures { Laid (side_at (names_in numbers.entry.edges.now numbers.entry.faces.now numbers.entry.loops.now) l z b j
        ∷ [])
        out.old place.at place.room out.new result.at result.room }
{
    let from = down_of(numbers.edges[2 * b + j] as usize);
    let to = end_of(numbers.edges, z, b, j);
    let e = numbers.edges[2 * b + (z + 1) + j] as usize;
    let f = numbers.faces[b + j] as usize;
    let l2 = numbers.loops[b + j] as usize;
    let op = mef_of(l, from, to, e, f, l2, 0);
    put_one(op, kef_size(e), out, place)
}

// The only side of a loop with one corner.
fn put_only(
    numbers: FreeNumbers,
    l: usize,
    z: usize,
    b: usize,
    out: &mut [u8],
    place: Place,
) -> Place
    requires l_bound { (l ≤ 4096) × (b + z < 2048) × Low numbers.edges.now (2 * (b + suc z)) }
    requires at_in_bounds { (place.at + 27 ≤ length out.old) × (place.at ≤ 200000) × (place.room ≤ 200000) }
    ensures { Laid (only_side (names_in numbers.entry.edges.now numbers.entry.faces.now numbers.entry.loops.now) l z b
        ∷ [])
        out.old place.at place.room out.new result.at result.room }
{
    let h = down_of(numbers.edges[2 * b] as usize);
    let e = numbers.edges[2 * b + (z + 1)] as usize;
    let f = numbers.faces[b] as usize;
    let l2 = numbers.loops[b] as usize;
    let op = mef_of(l, h, h, e, f, l2, 2);
    put_one(op, kef_size(e), out, place)
}

// All sides of a loop with z + 1 corners, two at least.
fn put_round(
    numbers: FreeNumbers,
    l: usize,
    z: usize,
    b: usize,
    out: &mut [u8],
    place: Place,
) -> Place
    requires l_bound { (l ≤ 4096) × (b + z < 2048) × Low numbers.edges.now (2 * (b + suc z)) }
    requires z_in_bounds { (place.at + 27 * suc z ≤ length out.old) × (place.at ≤ 120000) × (place.room ≤ 120000) }
    ensures { Laid (series 0 (suc z)
        (side_at (names_in numbers.entry.edges.now numbers.entry.faces.now numbers.entry.loops.now) l z b))
        out.old place.at place.room out.new result.at result.room }
{
    let mut behind = place;
    for j in 0..z + 1 {
        behind = put_side(numbers, l, z, b, j, out, behind);
    }
    behind
}

// All sides of a loop with z + 1 corners.
pub fn put_sides(
    numbers: FreeNumbers,
    l: usize,
    z: usize,
    b: usize,
    out: &mut [u8],
    place: Place,
) -> Place
    requires l_bound { (l ≤ 4096) × (b + z < 2048) × Low numbers.edges.now (2 * (b + suc z)) }
    requires z_in_bounds { (place.at + 27 * suc z ≤ length out.old) × (place.at ≤ 120000) × (place.room ≤ 120000) }
    ensures { Laid (sides_of (names_in numbers.entry.edges.now numbers.entry.faces.now numbers.entry.loops.now) l z b)
        out.old place.at place.room out.new result.at result.room }
{
    if z == 0 {
        return put_only(numbers, l, z, b, out, place);
    }
    put_round(numbers, l, z, b, out, place)
}
