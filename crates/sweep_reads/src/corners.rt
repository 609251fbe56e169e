// The corners of a loop and of a face, counted.
ghost use Rattle.std.specs.Prelude.{◌≡◌, ◌*◌, ◌≤◌, ◌<◌};
ghost use Rattle.layout.specs.Small.{Small};
ghost use Rattle.sweeps.specs.Sweep.{corners_in, corners_of, corners_to};

use layout::columns::{loop_face, loop_first, next_of};
use layout::shape::Shape;

// So many steps lead from the first half-edge back to it.
pub fn corners_in(links: &[u16], sh: Shape, l: usize) -> usize
    requires { Small sh × (l ≤ 65536) }
    ensures { (result ≡ corners_in sh links.now l) × (result ≤ 8192) }
{
    let first = loop_first(links, sh, l);
    let n = 2 * (sh.edges as usize);
    let mut k = first;
    for j in 0..n {
        k = next_of(links, sh, k);
        if k == first {
            return j + 1;
        }
    }
    0
}

// Those of loop l, if it lies in face f.
pub fn corners_of(links: &[u16], sh: Shape, f: usize, l: usize) -> usize
    requires { Small sh × (l ≤ 65536) }
    ensures { (result ≡ corners_of sh links.now f l) × (result ≤ 8192) }
{
    if loop_face(links, sh, l) == f {
        return corners_in(links, sh, l);
    }
    0
}

// Those of all loops of face f.
pub fn corners_to(links: &[u16], sh: Shape, f: usize) -> usize
    requires { Small sh }
    ensures { (result ≡ corners_to sh links.now f sh.loops) × (result ≤ 33554432) }
{
    let n = sh.loops as usize;
    let mut sum: usize = 0;
    for l in 0..n {
        sum += corners_of(links, sh, f, l + 1);
    }
    sum
}
