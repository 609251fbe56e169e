// The refusals of a sweep that come before its script is written: the face, lone loops, points, free numbers.
ghost use Rattle.std.specs.Prelude.{◌≡◌, [], ◌∷◌, ◌*◌, ◌≤◌, leb};
ghost use Rattle.laws.specs.Every.{every};
ghost use Rattle.layout.specs.Small.{Small};
ghost use Rattle.refusals.specs.Numbers.{refusal_in};
ghost use Rattle.sweep_call.specs.CallLaws.{face_refusal_of};

use layout::columns::face_solid;
use layout::shape::Shape;
use refusals::{Refusal, ensure};
use sweep_reads::conditions::{all_move, some_lone};
use sweeps::Vector;

// 5 and 6 for the face, 14, 5 for a moved point.
pub fn face_refusal(
    links: &[u16],
    points: &[i32],
    sh: Shape,
    f: usize,
    v: Vector,
) -> Result<(), Refusal>
    requires { Small sh }
    ensures { refusal_in result ≡ face_refusal_of sh links.now points.now f v }
{
    ensure(f != 0, Refusal::OutOfRange)?;
    ensure(f <= sh.faces as usize, Refusal::OutOfRange)?;
    ensure(face_solid(links, sh, f) != 0, Refusal::ItemFree)?;
    ensure(!some_lone(links, sh, f), Refusal::LoneLoop)?;
    ensure(all_move(links, points, sh, f, v), Refusal::OutOfRange)
}

// Enough numbers of each kind are free for n corners.
pub fn enough(n: usize, vertices: usize, edges: usize, faces: usize, loops: usize) -> bool
    requires { n ≤ 33554432 }
    ensures { result ≡ every (leb n vertices ∷ leb (2 * n) edges ∷ leb n faces ∷ leb n loops ∷ []) }
{
    (n <= vertices) & ((2 * n <= edges) & ((n <= faces) & (n <= loops)))
}
