// Points moved by the vector.
ghost use Rattle.std.specs.Prelude.{◌≡◌, ◌<◌, ◌≤◌, ◌+ℤ◌};
ghost use Rattle.layout.specs.Points.{point_width, coordinate, range_test};
ghost use Rattle.sweep_reads.specs.MovedLaws.{held_in};

use layout::points::coordinate;

// The sum of a coordinate and the vector's is a coordinate.
fn fits_sum(c: i32, d: i32) -> bool
    ensures { result ≡ range_test (c +ℤ d) }
{
    let s = c as i64 + d as i64;
    (-50000 <= s) & (s <= 50000)
}

// That sum; 0 where it is none.
fn sum_of(c: i32, d: i32) -> i32
    ensures { result ≡ held_in (c +ℤ d) }
{
    if fits_sum(c, d) {
        return c + d;
    }
    0
}

// Coordinate i of vertex v, moved, is in range.
pub fn fits(points: &[i32], v: usize, i: usize, d: i32) -> bool
    requires { (v ≤ 65536) × (i < point_width) }
    ensures { result ≡ range_test (coordinate points.now v i +ℤ d) }
{
    fits_sum(coordinate(points, v, i), d)
}

// Coordinate i of vertex v, moved; 0 where it is out of range.
pub fn moved(points: &[i32], v: usize, i: usize, d: i32) -> i32
    requires { (v ≤ 65536) × (i < point_width) }
    ensures { result ≡ held_in (coordinate points.now v i +ℤ d) }
{
    sum_of(coordinate(points, v, i), d)
}
