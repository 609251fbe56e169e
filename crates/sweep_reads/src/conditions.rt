// What a sweep asks of loops and half-edges.
ghost use Rattle.std.specs.Prelude.{◌≡◌, ◌*◌, ◌<◌, ◌≤◌};
ghost use Rattle.laws.specs.Search.{all_to, any_to};
ghost use Rattle.layout.specs.Small.{Small};
ghost use Rattle.sweeps.specs.Sweep.{lone_in, moves};

use crate::moved::fits;
use layout::columns::{loop_face, loop_isolated, side_of, start_of};
use layout::shape::Shape;
use searching::{all_pass, one_passes};
use sweeps::Vector;

// Loop l lies in face f and is lone.
fn lone_in(links: &[u16], sh: Shape, f: usize, l: usize) -> bool
    requires { l ≤ 65536 }
    ensures { result ≡ lone_in sh links.now f l }
{
    let face = loop_face(links, sh, l);
    let lone = loop_isolated(links, sh, l);
    (face == f) & (lone != 0)
}

// A loop of face f is lone.
pub fn some_lone(links: &[u16], sh: Shape, f: usize) -> bool
    requires { Small sh }
    ensures { result ≡ any_to sh.loops (lone_in sh links.now f) }
{
    one_passes(sh.loops as usize, |l| lone_in(links, sh, f, l))
}

// The start of half-edge k, moved by v, is in range, if k lies in face f.
fn moves(links: &[u16], points: &[i32], sh: Shape, f: usize, v: Vector, k: usize) -> bool
    requires { k ≤ 65536 }
    ensures { result ≡ moves sh links.now points.now f v k }
{
    let start = start_of(links, sh, k);
    if start == 0 {
        return true;
    }
    if side_of(links, sh, k) != f {
        return true;
    }
    let x = fits(points, start, 0, v.x);
    let y = fits(points, start, 1, v.y);
    let z = fits(points, start, 2, v.z);
    x & (y & z)
}

// The starts of all half-edges of face f.
pub fn all_move(links: &[u16], points: &[i32], sh: Shape, f: usize, v: Vector) -> bool
    requires { Small sh }
    ensures { result ≡ all_to (2 * sh.edges) (moves sh links.now points.now f v) }
{
    all_pass(
        2 * (sh.edges as usize),
        |k| moves(links, points, sh, f, v, k),
    )
}
