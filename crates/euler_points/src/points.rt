// The vertex that each operator kills and its effect on points, decided by a match over the codes 1 to 13. An operator
// is its code and its operands lent: to hand over the struct by value costs more than the effect.
ghost use Rattle.std.specs.Prelude.{◌≡◌, ℕ, ◌≤◌, ◌<◌};
ghost use Rattle.layout.specs.Small.{Small};
ghost use Rattle.euler.specs.Exec.{operator_by, killed_vertex, clear_point};
ghost use Rattle.euler_points.specs.Chosen.{points_with};

use euler::records::item_at;
use euler_lone::lone::lone_solid;
use euler_surgery::points::put_point;
use layout::columns::{next_of, start_of};
use layout::mates::mate_of;
use layout::shape::Shape;

// The vertex that the operator kills; 0 for none.
pub fn killed_vertex(links: &[u16], sh: Shape, code: u8, args: &[i32; 8]) -> usize
    requires { Small sh }
    ensures { (result ≡ killed_vertex sh links.now (operator_by code args.now)) × (result < 65536) }
{
    match code {
        2 => lone_solid(links, sh, item_at(args, 0)).vertex,
        4 => start_of(links, sh, mate_of(item_at(args, 0))),
        12 => start_of(links, sh, next_of(links, sh, item_at(args, 0))),
        _ => 0,
    }
}

// The point of vertex v cleared.
pub fn clear_point(points: &mut [i32], v: usize)
    requires { v < 65536 }
    ensures { points.new ≡ clear_point points.old v }
{
    let zero = [0i32; 8];
    put_point(points, v, &zero, 0);
}

// The points after the operator, v the vertex that it kills.
pub fn apply_points(points: &mut [i32], code: u8, args: &[i32; 8], v: usize)
    requires { v < 65536 }
    ensures { points.new
        ≡ points_with points.old (operator_by code args.now) v }
{
    match code {
        1 => put_point(points, item_at(args, 3), args, 4),
        3 => put_point(points, item_at(args, 3), args, 5),
        11 => put_point(points, item_at(args, 2), args, 4),
        2 | 4 | 12 => clear_point(points, v),
        _ => {}
    }
}
