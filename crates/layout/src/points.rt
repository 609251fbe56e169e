// The points of a table: three coordinates for each vertex. Reading is total, as for the links.
ghost use Rattle.std.specs.Prelude.{◌≡◌, ◌<◌, ◌≤◌};
ghost use Rattle.layout.specs.Points.{point_width, coordinate, in_range, is_zero};

// How many coordinates a point has.
pub const POINT_WIDTH: usize = 3;

// Coordinate i of vertex v, and 0 where there is none.
pub fn coordinate(points: &[i32], v: usize, i: usize) -> i32
    requires { (v ≤ 65536) × (i < point_width) }
    ensures { result ≡ coordinate points.now v i }
{
    if v == 0 {
        return 0;
    }
    let at = POINT_WIDTH * (v - 1) + i;
    if at < points.len() {
        return points[at];
    }
    0
}

// Coordinate i of vertex v is −50,000 to 50,000.
pub fn in_range(points: &[i32], v: usize, i: usize) -> bool
    requires { (v ≤ 65536) × (i < point_width) }
    ensures { result ≡ in_range points.now v i }
{
    let c = coordinate(points, v, i);
    (-50000 <= c) & (c <= 50000)
}

// Coordinate i of vertex v is 0.
pub fn is_zero(points: &[i32], v: usize, i: usize) -> bool
    requires { (v ≤ 65536) × (i < point_width) }
    ensures { result ≡ is_zero points.now v i }
{
    coordinate(points, v, i) == 0
}
