// The lines of an OBJ text. The corners of a face are written by their ranks, which stand in an array.
ghost use Rattle.std.specs.Prelude.{◌≡◌, Bool, List, [], ℕ, ◌+◌, ◌-◌, ◌*◌, ◌≤◌, ◌<◌, T, eqb, get_or};
ghost use Rattle.laws.specs.Bools.{pick};
ghost use Rattle.bounds.specs.Bounds.{most_items};
ghost use Rattle.layout.specs.Points.{point_width, coordinate, in_range};
ghost use Rattle.layout.specs.Items.{some};
ghost use Rattle.layout.specs.Small.{Small};
ghost use Rattle.text.specs.Put.{Put};
ghost use Rattle.wavefront.specs.Obj.{passing_to, own_face, own_faces, millimetres, spaced, concat_map, vertex_line};
ghost use Rattle.wavefront.specs.Obj.{corner_word, face_line};
ghost use Rattle.wavefront_text.specs.LineLaws.{InRanges, AllInRange, Low};

use crate::bytes::{put_byte, put_coordinate, put_number};
use bounds::ITEM_PLACES;
use layout::cells::word;
use layout::columns::{face_outer, face_solid, loop_first, prev_of, start_of};
use layout::points::coordinate;
use layout::shape::Shape;

// ---- vertices

// A space and coordinate i of vertex v.
fn put_word(out: &mut [u8], at: usize, points: &[i32], v: usize, i: usize) -> usize
    requires { (at + 8 ≤ 4294967296) × (v ≤ 65536) × (i < point_width) × T (in_range points.now v i) }
    ensures put { Put out.old at (spaced (millimetres (coordinate points.now v i))) result out.new }
    ensures upper_bound { result ≤ at + 8 }
{
    put_coordinate(out, at, coordinate(points, v, i))
}

// The line of vertex v.
fn put_vertex(out: &mut [u8], at: usize, points: &[i32], v: usize) -> usize
    requires { (at + 26 ≤ 4294967296) × (v ≤ 65536) × InRanges points.now v }
    ensures put { Put out.old at (vertex_line points.now v) result out.new }
    ensures upper_bound { result ≤ at + 26 }
{
    let x = put_byte(out, at, b'v');
    let y = put_word(out, x, points, v, 0);
    let z = put_word(out, y, points, v, 1);
    let end = put_word(out, z, points, v, 2);
    put_byte(out, end, b'\n')
}

// What vertex v counts as; 0 past the array's end.
fn rank_of(ranks: &[u16; ITEM_PLACES], v: usize) -> usize
    ensures { result ≡ get_or ranks.now v 0 }
{
    word(ranks, v)
}

// The line of vertex v, where it has a rank.
fn put_ranked(
    out: &mut [u8],
    at: usize,
    points: &[i32],
    ranks: &[u16; ITEM_PLACES],
    v: usize,
) -> usize
    requires { (at + 26 ≤ 4294967296) × (v ≤ 65536) × InRanges points.now v }
    ensures put { Put out.old at
        (pick (some (get_or ranks.now v 0)) (vertex_line points.now v) []) result out.new }
    ensures upper_bound { result ≤ at + 26 }
{
    if rank_of(ranks, v) == 0 {
        return at;
    }
    put_vertex(out, at, points, v)
}

// The lines of those of the vertices 1 to n that have a rank, from the front on.
pub fn put_vertices(out: &mut [u8], points: &[i32], n: usize, ranks: &[u16; ITEM_PLACES]) -> usize
    requires n_le_most_items { n ≤ most_items }
    requires all_in_range { AllInRange points.now n }
    ensures put { Put out.old 0
        (concat_map (vertex_line points.now) (passing_to n (λ v. some (get_or ranks.now v 0)))) result
        out.new }
    ensures upper_bound { result ≤ 26 * n }
{
    let mut at: usize = 0;
    for v in 0..n {
        at = put_ranked(out, at, points, ranks, v + 1);
    }
    at
}

// ---- faces

// A space and the rank of the start of half-edge k.
fn put_corner(
    out: &mut [u8],
    at: usize,
    links: &[u16],
    sh: Shape,
    ranks: &[u16; ITEM_PLACES],
    k: usize,
) -> usize
    requires { (at + 5 ≤ 4294967296) × (k ≤ 65536) × Low ranks.now }
    ensures put { Put out.old at
        (corner_word sh links.now (λ v. get_or ranks.now v 0) k) result out.new }
    ensures upper_bound { result ≤ at + 5 }
{
    let number = put_byte(out, at, b' ');
    let v = start_of(links, sh, k);
    let rank = rank_of(ranks, v);
    put_number(out, number, rank)
}

// The line of face f.
fn put_face(
    out: &mut [u8],
    at: usize,
    links: &[u16],
    sh: Shape,
    ranks: &[u16; ITEM_PLACES],
    f: usize,
) -> usize
    requires at_bound { (at + 40962 ≤ 4294967296) × (f ≤ 65536) }
    requires low { Low ranks.now × Small sh }
    ensures put { Put out.old at
        (face_line sh links.now (λ v. get_or ranks.now v 0) f) result out.new }
    ensures upper_bound { result ≤ at + 40962 }
{
    let first = loop_first(links, sh, face_outer(links, sh, f));
    let mut place = put_byte(out, at, b'f');
    let mut k = first;
    for _ in 0..2 * (sh.edges as usize) {
        place = put_corner(out, place, links, sh, ranks, k);
        k = prev_of(links, sh, k);
        if k == first {
            break;
        }
    }
    put_byte(out, place, b'\n')
}

// The line of face f, where it is one of solid s.
fn put_own_face(
    out: &mut [u8],
    at: usize,
    links: &[u16],
    sh: Shape,
    s: usize,
    ranks: &[u16; ITEM_PLACES],
    f: usize,
) -> usize
    requires at_bound { (at + 40962 ≤ 4294967296) × (f ≤ 65536) }
    requires low { Low ranks.now × Small sh }
    ensures put { Put out.old at (pick (own_face sh links.now s f)
        (face_line sh links.now (λ v. get_or ranks.now v 0) f) []) result out.new }
    ensures upper_bound { result ≤ at + 40962 }
{
    if face_solid(links, sh, f) == s {
        return put_face(out, at, links, sh, ranks, f);
    }
    at
}

// The lines of the faces of solid s, from `at` on.
pub fn put_faces(
    out: &mut [u8],
    at: usize,
    links: &[u16],
    sh: Shape,
    s: usize,
    ranks: &[u16; ITEM_PLACES],
) -> usize
    requires { (at ≤ 106496) × Low ranks.now × Small sh }
    ensures { Put out.old at (concat_map (face_line sh links.now
        (λ v. get_or ranks.now v 0)) (own_faces sh links.now s)) result out.new }
{
    let n = sh.faces as usize;
    let mut place = at;
    for f in 0..n {
        place = put_own_face(out, place, links, sh, s, ranks, f + 1);
    }
    place
}
