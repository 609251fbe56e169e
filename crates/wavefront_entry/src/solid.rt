// What is asked of a solid before it is written: refusals 5, 6 and 12.
ghost use Rattle.std.specs.Prelude.{◌≡◌, Bool, ◌&&◌, ℕ, ◌≤◌, ◌<◌};
ghost use Rattle.layout.specs.Small.{Small};
ghost use Rattle.wavefront.specs.Obj.{three_sides, outer_loop, sided_loop, no_ring_nor_lone, three_sided};
ghost use Rattle.wavefront.specs.Obj.{solid_refusal};
ghost use Rattle.refusals.specs.Numbers.{refusal_in};

use layout::columns::{face_outer, face_solid, loop_face, loop_first, prev_of, solid_used};
use layout::shape::Shape;
use refusals::{Refusal, ensure};
use searching::all_pass;

// The loop of half-edge k has three sides at least.
fn three_sides(links: &[u16], sh: Shape, k: usize) -> bool
    requires { k ≤ 65536 }
    ensures { result ≡ three_sides sh links.now k }
{
    let before = prev_of(links, sh, k);
    if before == k {
        return false;
    }
    if prev_of(links, sh, before) == k {
        return false;
    }
    true
}

// Loop l, where it is one of solid s, is its face's outer loop, has half-edges, and of these three at least.
fn plain_loop(links: &[u16], sh: Shape, s: usize, l: usize) -> bool
    requires { l ≤ 65536 }
    ensures { result ≡ (outer_loop sh links.now s l && sided_loop sh links.now s l) }
{
    let f = loop_face(links, sh, l);
    if face_solid(links, sh, f) != s {
        return true;
    }
    if face_outer(links, sh, f) != l {
        return false;
    }
    let first = loop_first(links, sh, l);
    if first == 0 {
        return false;
    }
    three_sides(links, sh, first)
}

// No face of solid s has a ring, a lone loop or under three sides.
fn plain(links: &[u16], sh: Shape, s: usize) -> bool
    requires { Small sh }
    ensures { result ≡ (no_ring_nor_lone sh links.now s && three_sided sh links.now s) }
{
    all_pass(sh.loops as usize, |l| plain_loop(links, sh, s, l))
}

// Why solid s of a sound table is refused, if it is.
pub fn solid_refusal(links: &[u16], sh: Shape, s: usize) -> Result<(), Refusal>
    requires { Small sh }
    ensures { refusal_in result ≡ solid_refusal sh links.now s }
{
    ensure(s != 0, Refusal::OutOfRange)?;
    ensure(s <= sh.solids as usize, Refusal::OutOfRange)?;
    ensure(solid_used(links, sh, s) != 0, Refusal::ItemFree)?;
    ensure(plain(links, sh, s), Refusal::NotPlain)
}
