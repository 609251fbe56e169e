// rmov: a ring becomes the outer loop of its face, or passes to a neighbouring face.
ghost use Rattle.std.specs.Prelude.{◌≡◌, ℕ, ◌*◌, ◌<◌, ◌≤◌};
ghost use Rattle.laws.specs.Search.{least};
ghost use Rattle.bounds.specs.Bounds.{most_items};
ghost use Rattle.euler.specs.FaceOperators.{shares_outside, rmov_test, rmov_links, rmov_inverse};

use euler::faces::is_ring;
use layout::columns::{
    face_outer, loop_face, loop_of, set_face_outer, set_loop_face, side_of, start_of,
};
use layout::mates::mate_of;
use layout::shape::Shape;
use script::{Operator, blank, with_number};
use searching::least;

// Half-edge k lies in l's face outside l, with its mate in f. An edge of the ring itself would go along with it.
fn shares_outside(links: &[u16], sh: Shape, l: usize, f: usize, k: usize) -> bool
    requires { (l < 65536) × (k < 65536) }
    ensures { result ≡ shares_outside sh links.now l f k }
{
    if start_of(links, sh, k) == 0 {
        return false;
    }
    let owner = loop_of(links, sh, k);
    owner != l
        && loop_face(links, sh, owner) == loop_face(links, sh, l)
        && side_of(links, sh, mate_of(k)) == f
}

// The least half-edge that does so; 0 where none does.
fn sharing_half(links: &[u16], sh: Shape, l: usize, f: usize) -> usize
    requires { (sh.edges ≤ most_items) × (l < 65536) }
    ensures { result ≡ least (2 * sh.edges) (shares_outside sh links.now l f) }
{
    least(1, 2 * sh.edges as usize, |k| {
        shares_outside(links, sh, l, f, k)
    })
    .unwrap_or(0)
}

// The half-edges are gone through only for a ring that leaves its face.
pub fn rmov_fits(links: &[u16], sh: Shape, l: usize, f: usize) -> bool
    requires { (sh.edges ≤ most_items) × (l < 65536) }
    ensures { result ≡ rmov_test sh links.now l f }
{
    is_ring(links, sh, l) && (f == loop_face(links, sh, l) || sharing_half(links, sh, l, f) != 0)
}

// Within its face the ring becomes outer; else it passes to f.
pub fn rmov_links(links: &mut [u16], sh: Shape, l: usize, f: usize)
    requires { (l < 65536) × (f < 65536) }
    ensures { links.new ≡ rmov_links sh links.old l f }
{
    if f == loop_face(links, sh, l) {
        set_face_outer(links, sh, f, l);
    } else {
        set_loop_face(links, sh, l, f);
    }
}

// rmov undoes itself: the loop that was outer before becomes outer again, or the ring returns to its old face.
pub fn rmov_inverse(links: &[u16], sh: Shape, l: usize, f: usize) -> Operator
    requires { (l < 65536) × (f < 65536) }
    ensures { result ≡ rmov_inverse sh links.now l f }
{
    let old = loop_face(links, sh, l);
    let outer = face_outer(links, sh, f);
    let (ring, face) = if f == old { (outer, f) } else { (l, old) };
    with_number(with_number(blank(13, 2), 0, ring), 1, face)
}
