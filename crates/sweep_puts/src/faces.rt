// All of a loop, and all loops of a face.
ghost use Rattle.std.specs.Prelude.{◌+◌, ◌*◌, ◌-◌, ◌≤◌, ◌<◌, length};
ghost use Rattle.layout.specs.Small.{Small};
ghost use Rattle.sweep_puts.specs.FaceLaws.{Named, Liftable, part_of};
ghost use Rattle.sweep_puts.specs.Laid.{Laid};
ghost use Rattle.sweep_puts.specs.RiserLaws.{Moving};
ghost use Rattle.sweeps.specs.Sweep.{loop_ops, corners_to, sweep_ops};

use crate::free::FreeNumbers;
use crate::place::Place;
use crate::risers::put_risers;
use crate::sides::put_sides;
use layout::shape::Shape;
use sweep_reads::corners::corners_of;
use sweeps::Vector;

// The risers of loop l, then its sides.
fn put_loop(
    links: &[u16],
    points: &[i32],
    sh: Shape,
    numbers: FreeNumbers,
    l: usize,
    n: usize,
    b: usize,
    d: Vector,
    out: &mut [u8],
    place: Place,
) -> Place
    requires l_bound { (l ≤ 4096) × (1 ≤ n) × (b + n ≤ 2048) × (place.at ≤ 54 * b) × (place.room ≤ 54 * b)
        × (54 * (b + n) ≤ length out.old) }
    requires named { Named sh links.now numbers.edges.now numbers.vertices.now numbers.faces.now
        numbers.loops.now (b + n) }
    requires moving { Moving sh links.now points.now d l n }
    ensures { Laid (loop_ops sh links.now points.now d l (n - 1) b)
        out.old place.at place.room out.new result.at result.room }
{
    let up = put_risers(links, points, sh, numbers, l, n, b, d, out, place);
    put_sides(numbers, l, n - 1, b, out, up)
}

// The same, if it has corners at all.
fn put_part(
    links: &[u16],
    points: &[i32],
    sh: Shape,
    numbers: FreeNumbers,
    l: usize,
    n: usize,
    b: usize,
    d: Vector,
    out: &mut [u8],
    place: Place,
) -> Place
    requires l_bound { (l ≤ 4096) × (b + n ≤ 2048) × (place.at ≤ 54 * b) × (place.room ≤ 54 * b)
        × (54 * (b + n) ≤ length out.old) }
    requires named { Named sh links.now numbers.edges.now numbers.vertices.now numbers.faces.now
        numbers.loops.now (b + n) }
    requires moving { Moving sh links.now points.now d l n }
    ensures { Laid (part_of sh links.now points.now d l n b)
        out.old place.at place.room out.new result.at result.room }
{
    if n == 0 {
        return place;
    }
    put_loop(links, points, sh, numbers, l, n, b, d, out, place)
}

// All loops of face f.
pub fn put_face(
    links: &[u16],
    points: &[i32],
    sh: Shape,
    numbers: FreeNumbers,
    f: usize,
    d: Vector,
    out: &mut [u8],
) -> Place
    requires small { Small sh × (corners_to sh links.now f sh.loops ≤ 2048)
        × (54 * corners_to sh links.now f sh.loops ≤ length out.old) }
    requires named { Named sh links.now numbers.edges.now numbers.vertices.now numbers.faces.now numbers.loops.now
        (corners_to sh links.now f sh.loops) }
    requires liftable { Liftable sh links.now points.now f d }
    ensures { Laid (sweep_ops sh links.now points.now f d)
        out.old 0 0 out.new result.at result.room }
{
    let n = sh.loops as usize;
    let mut place = Place { at: 0, room: 0 };
    let mut b: usize = 0;
    for l in 0..n {
        let c = corners_of(links, sh, f, l + 1);
        place = put_part(links, points, sh, numbers, l + 1, c, b, d, out, place);
        b += c;
    }
    place
}
