// The point of a vertex: stored from operands that are lent, and read into an operator.
ghost use Rattle.std.specs.Prelude.{◌≡◌, ℕ, ◌+◌, ◌<◌, ◌≤◌, ℤ, pos, get_or};
ghost use Rattle.layout.specs.Points.{point_width, coordinate, set_coordinate};
ghost use Rattle.euler.specs.Surgery.{point_in, with_operand, with_point};

use layout::points::{POINT_WIDTH, coordinate};
use script::Operator;

// Coordinate i of vertex v becomes operand j of those lent; total, as for the links.
fn put_coordinate(points: &mut [i32], v: usize, i: usize, args: &[i32; 8], j: usize)
    requires { (v ≤ 65536) × (i < point_width) × (j < 8) }
    ensures { points.new
        ≡ set_coordinate points.old v i (get_or args.now j (pos 0)) }
{
    if v == 0 {
        return;
    }
    let at = POINT_WIDTH * (v - 1) + i;
    if at < points.len() {
        points[at] = args[j];
    }
}

// The point at operands i, i + 1, i + 2 goes to vertex v.
pub fn put_point(points: &mut [i32], v: usize, args: &[i32; 8], i: usize)
    requires { (v ≤ 65536) × (i < 6) }
    ensures { points.new ≡ point_in points.old args.now v i }
{
    put_coordinate(points, v, 0, args, i);
    put_coordinate(points, v, 1, args, i + 1);
    put_coordinate(points, v, 2, args, i + 2);
}

// The operator with the point of vertex v for operands i, i + 1, i + 2.
pub fn with_point(op: Operator, i: usize, points: &[i32], v: usize) -> Operator
    requires { (v ≤ 65536) × (i < 6) }
    ensures { result ≡ with_point op i points.now v }
{
    let mut next = op;
    next.args[i] = coordinate(points, v, 0);
    next.args[i + 1] = coordinate(points, v, 1);
    next.args[i + 2] = coordinate(points, v, 2);
    next
}
