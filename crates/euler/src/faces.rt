// What lies in which face: whether a loop is a ring, how many loops a face has.
ghost use Rattle.std.specs.Prelude.{◌≡◌, ℕ, ◌<◌, ◌≤◌};
ghost use Rattle.layout.specs.Items.{is_ring};
ghost use Rattle.euler.specs.Queries.{loops_in};

use crate::scans::count_naming;
use layout::column::faces_of_loops;
use layout::columns::{face_outer, loop_face};
use layout::shape::Shape;

// Loop l is not its face's outer loop.
pub fn is_ring(links: &[u16], sh: Shape, l: usize) -> bool
    requires { l ≤ 65536 }
    ensures { result ≡ is_ring sh links.now l }
{
    face_outer(links, sh, loop_face(links, sh, l)) != l
}

// How many loops face f has.
pub fn loops_in(links: &[u16], sh: Shape, f: usize) -> usize
    requires { sh.loops < 65536 }
    ensures { (result ≡ loops_in sh links.now f) × (result < 65536) }
{
    count_naming(links, faces_of_loops(sh), f)
}
