// The risers of a loop: a mev at each corner.
ghost use Rattle.std.specs.Prelude.{◌≡◌, ◌+◌, ◌*◌, ◌≤◌, ◌<◌, length};
ghost use Rattle.chains.specs.Numbers.{free_names};
ghost use Rattle.chains.specs.Series.{series};
ghost use Rattle.sweep_puts.specs.Laid.{Laid};
ghost use Rattle.sweep_puts.specs.RiserLaws.{Holds, Moving, riser_by, riser_of};

use crate::free::FreeNumbers;
use crate::ops::{kev_size, mev_of};
use crate::place::{Place, put_one};
use layout::columns::{loop_first, next_of, start_of};
use layout::shape::Shape;
use script::Operator;
use sweep_reads::moved::moved;
use sweeps::Vector;

// The riser at corner k, with the point of its start moved by d.
fn riser_of(
    links: &[u16],
    points: &[i32],
    sh: Shape,
    l: usize,
    k: usize,
    e: usize,
    v: usize,
    d: Vector,
) -> Operator
    requires { (l < 65536) × (k < 65536) × (e ≤ 4096) × (v ≤ 4096) }
    ensures { result ≡ riser_by sh links.now points.now d l k e v }
{
    let s = start_of(links, sh, k);
    let x = moved(points, s, 0, d.x);
    let y = moved(points, s, 1, d.y);
    let z = moved(points, s, 2, d.z);
    mev_of(l, k, e, v, x, y, z)
}

// All risers of loop l, which has n corners, with b corners swept before it.
pub fn put_risers(
    links: &[u16],
    points: &[i32],
    sh: Shape,
    numbers: FreeNumbers,
    l: usize,
    n: usize,
    b: usize,
    d: Vector,
    out: &mut [u8],
    place: Place,
) -> Place
    requires l_bound { (l ≤ 4096) × (b + n ≤ 2048) × (place.at ≤ 120000) × (place.room ≤ 120000)
        × (place.at + 27 * n ≤ length out.old) }
    requires holds { Holds (free_names sh links.now).edge numbers.edges.now (2 * (b + n)) }
    requires holds_2 { Holds (free_names sh links.now).vertex numbers.vertices.now (b + n) }
    requires moving { Moving sh links.now points.now d l n }
    ensures { Laid (series 0 n (riser_of sh links.now points.now d l b))
        out.old place.at place.room out.new result.at result.room }
{
    let mut k = loop_first(links, sh, l);
    let mut behind = place;
    for j in 0..n {
        let e = numbers.edges[2 * b + j] as usize;
        let v = numbers.vertices[b + j] as usize;
        let op = riser_of(links, points, sh, l, k, e, v, d);
        behind = put_one(op, kev_size(e), out, behind);
        k = next_of(links, sh, k);
    }
    behind
}
