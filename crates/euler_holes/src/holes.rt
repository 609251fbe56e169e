// kfmrh makes the loop of a face a ring of another face, mfkrh makes a ring the outer loop of a new face. Within one
// solid this makes or kills a hole through it; between two it joins or divides solids.
ghost use Rattle.std.specs.Prelude.{◌≡◌, ℕ, ◌<◌, ◌≤◌};
ghost use Rattle.bounds.specs.Bounds.{most_items};
ghost use Rattle.layout.specs.Small.{Small};
ghost use Rattle.euler.specs.FaceOperators.{kfmrh_test, kfmrh_links, kfmrh_inverse, ring_face, mfkrh_test, mfkrh_links};
ghost use Rattle.euler.specs.FaceOperators.{mfkrh_inverse};
ghost use Rattle.euler_counts.specs.Counts.{Counted};
ghost use Rattle.euler_holes.specs.Moves.{give_loop};

use crate::moves::{join_solids, move_shell};
use bounds::ITEM_PLACES;
use check_shells::faces::{link_faces, linked_faces};
use euler::faces::is_ring;
use euler_counts::counts::loops_kept;
use euler_surgery::records::put_face;
use layout::columns::{face_outer, face_solid, loop_face, set_loop_face, set_solid_used};
use layout::shape::Shape;
use script::{Operator, blank, with_number};

pub fn kfmrh_fits(
    links: &[u16],
    counts: &[u16; ITEM_PLACES],
    sh: Shape,
    f1: usize,
    f2: usize,
) -> bool
    requires small { Small sh }
    requires counted { Counted sh links.now counts.now }
    ensures { result ≡ kfmrh_test sh links.now f1 f2 }
{
    f1 != f2 && loops_kept(links, counts, sh, f2) == 1
}

// Loop l of face g becomes a ring of face f, and g is killed.
fn give_loop(links: &mut [u16], sh: Shape, l: usize, f: usize, g: usize)
    requires { (l < 65536) × (f < 65536) × (g < 65536) }
    ensures { links.new ≡ give_loop sh links.old l f g }
{
    set_loop_face(links, sh, l, f);
    put_face(links, sh, g, 0, 0);
}

pub fn kfmrh_links(links: &mut [u16], sh: Shape, f1: usize, f2: usize)
    requires { (sh.faces ≤ most_items) × (f1 < 65536) × (f2 < 65536) }
    ensures { links.new ≡ kfmrh_links sh links.old f1 f2 }
{
    let l = face_outer(links, sh, f2);
    let s = face_solid(links, sh, f2);
    let t = face_solid(links, sh, f1);
    give_loop(links, sh, l, f1, f2);
    join_solids(links, sh, s, t);
}

pub fn kfmrh_inverse(links: &[u16], sh: Shape, f1: usize, f2: usize) -> Operator
    requires { (f1 < 65536) × (f2 < 65536) }
    ensures { result ≡ kfmrh_inverse sh links.now f1 f2 }
{
    let l = face_outer(links, sh, f2);
    let s = face_solid(links, sh, f2);
    let t = face_solid(links, sh, f1);
    let killed = if t == s { 0 } else { s };
    let a = with_number(blank(10, 3), 0, l);
    let b = with_number(a, 1, f2);
    with_number(b, 2, killed)
}

// Whether a new solid is due is asked of the table as it will be, before anything is stored.
pub fn mfkrh_fits(links: &[u16], sh: Shape, l: usize, f: usize, s: usize) -> bool
    requires { (sh.faces ≤ most_items) × (sh.edges ≤ most_items) × (l < 65536) × (f < 65536) }
    ensures { result ≡ mfkrh_test sh links.now l f s }
{
    if !is_ring(links, sh, l) {
        return false;
    }
    let old = loop_face(links, sh, l);
    if linked_faces(links, sh, l, f, f, old) {
        s == 0
    } else {
        s != 0
    }
}

// Ring l becomes the outer loop of the new face f, in the solid of its old face.
fn ring_face(links: &mut [u16], sh: Shape, l: usize, f: usize)
    requires { (l < 65536) × (f < 65536) }
    ensures { links.new ≡ ring_face sh links.old l f }
{
    let old = loop_face(links, sh, l);
    let s = face_solid(links, sh, old);
    put_face(links, sh, f, s, l);
    set_loop_face(links, sh, l, f);
}

pub fn mfkrh_links(links: &mut [u16], sh: Shape, l: usize, f: usize, s: usize)
    requires { (sh.faces ≤ most_items) × (sh.edges ≤ most_items) × (l < 65536) × (f < 65536) × (s < 65536) }
    ensures { links.new ≡ mfkrh_links sh links.old l f s }
{
    if s == 0 {
        ring_face(links, sh, l, f);
        return;
    }
    let mut parent = [0u16; ITEM_PLACES];
    link_faces(links, sh, l, f, &mut parent);
    ring_face(links, sh, l, f);
    set_solid_used(links, sh, s, 1);
    move_shell(links, sh, &mut parent, f, s);
}

pub fn mfkrh_inverse(links: &[u16], sh: Shape, l: usize, f: usize) -> Operator
    requires { (l < 65536) × (f < 65536) }
    ensures { result ≡ mfkrh_inverse sh links.now l f }
{
    let old = loop_face(links, sh, l);
    with_number(with_number(blank(9, 2), 0, old), 1, f)
}
