// How each turn moves the lower ends. All of it is read off the table at the turn's beginning.
ghost use Rattle.std.specs.Prelude.{◌≡◌, ℕ, ◌+◌, ◌-◌, ◌*◌, ◌<◌, ◌≤◌};
ghost use Rattle.laws.specs.Bools.{pick};
ghost use Rattle.layout.specs.Small.{Small};
ghost use Rattle.takedown.specs.Swift as swift;
ghost use Rattle.takedown.specs.Swift.{ends_at, with_half, ring_ends, spur_ends, cross_ends, bare_ends};
ghost use Rattle.takedown_ends.specs.InWords.{InWords};

use crate::walks::least_run;
use euler::records::choose;
use euler_lone::lone::{face_in, faces_in};
use layout::columns::{next_of, prev_of, solid_used};
use layout::mates::mate_of;
use layout::shape::Shape;
use takedown::ends::Ends;
use takedown_search::seek::seek;

// Nothing is known but the solid, its root, the number of its faces, and the lower ends of A.
fn ends_at(solid: usize, root: usize, faces: usize, border: usize, stray: usize) -> Ends
    requires { (solid < 65536) × (root < 65536) }
    ensures { (result ≡ ends_at solid root faces border stray) × (InWords result) }
{
    Ends {
        solid,
        root,
        faces,
        border,
        stray,
        half: 1,
        ring: 1,
        pair: 0,
        spur: 1,
        tip: 1,
        tip2: 1,
        tip3: 1,
        tip4: 1,
        cross: 1,
        lone: 1,
    }
}

// The least solid in use from `low` on is entered; solid 0 where none is.
pub fn enter(links: &[u16], sh: Shape, low: usize) -> Ends
    requires { Small sh }
    ensures { (result ≡ swift.enter sh links.now low) × (InWords result) }
{
    let s = seek(low, sh.solids as usize, |k| solid_used(links, sh, k) != 0);
    let root = face_in(links, sh, s);
    let faces = faces_in(links, sh, s);
    ends_at(s, root, faces, 1, 1)
}

// After A. If no ring was moved, only the mates of the half-edges that went can be new candidates (`near` is the
// least of them), and no loop has become a ring.
pub fn across_ends(e: Ends, still: bool, near: usize, stray: usize) -> Ends
    requires { InWords e }
    ensures { (result ≡ ends_at e.solid e.root (e.faces - 1) (pick still near 1) (pick still stray 1))
        × (InWords result) }
{
    let faces = e.faces.saturating_sub(1);
    if still {
        return ends_at(e.solid, e.root, faces, near, stray);
    }
    ends_at(e.solid, e.root, faces, 1, 1)
}

// The first half-edge of the solid is `half`.
pub fn with_half(e: Ends, half: usize) -> Ends
    requires { InWords e }
    ensures { (result ≡ with_half e half) × (InWords result) }
{
    Ends { half, ..e }
}

// After mfkrh and kef k: only what came before k or its mate can be a new spur; behind kemr these are two more tips.
pub fn ring_ends(links: &[u16], sh: Shape, e: Ends, k: usize) -> Ends
    requires { (Small sh) × (InWords e) × (k < 65536) }
    ensures { (result ≡ ring_ends sh links.now e k) × (InWords result) }
{
    let past = 2 * sh.edges as usize + 1;
    let behind = e.pair == 1;
    let before = prev_of(links, sh, k);
    let other = prev_of(links, sh, mate_of(k));
    let nearer = e.spur.min(before.min(other));
    Ends {
        border: 1,
        stray: 1,
        ring: choose(behind, past, k),
        pair: 0,
        spur: choose(behind, e.spur, nearer),
        tip3: choose(behind, before, e.tip3),
        tip4: choose(behind, other, e.tip4),
        lone: 1,
        ..e
    }
}

// After kev k: only what came before k can be a new spur; it is the first tip, and the old one takes k's place among
// the others.
pub fn spur_ends(links: &[u16], sh: Shape, e: Ends, k: usize) -> Ends
    requires { (Small sh) × (InWords e) × (k < 65536) }
    ensures { (result ≡ spur_ends sh links.now e k) × (InWords result) }
{
    let past = 2 * sh.edges as usize + 1;
    let before = prev_of(links, sh, k);
    Ends {
        border: 1,
        stray: 1,
        ring: past,
        pair: 0,
        spur: e.spur.max(k),
        tip: before,
        tip2: choose(e.tip2 == k, e.tip, e.tip2),
        tip3: choose(e.tip3 == k, e.tip, e.tip3),
        tip4: choose(e.tip4 == k, e.tip, e.tip4),
        lone: 1,
        ..e
    }
}

// After kemr k: there was no spur, and only what came before k or its mate can be one. Only what was between k and
// its mate, and the mates of that, can lie in another loop than their mates.
pub fn cross_ends(links: &[u16], sh: Shape, e: Ends, k: usize) -> Ends
    requires { (Small sh) × (InWords e) × (k < 65536) }
    ensures { (result ≡ cross_ends sh links.now e k) × (InWords result) }
{
    let n = 2 * sh.edges as usize;
    let mate = mate_of(k);
    let before = prev_of(links, sh, k);
    let other = prev_of(links, sh, mate);
    let next = next_of(links, sh, k);
    let ring = least_run(links, sh, n, next, mate, n + 1);
    Ends {
        border: 1,
        stray: 1,
        ring,
        pair: 1,
        spur: n + 1,
        tip: before,
        tip2: other,
        tip3: before,
        tip4: other,
        cross: k,
        lone: 1,
        ..e
    }
}

// After mekr and kev: the root has lost its ring l, and no half-edge is left.
pub fn bare_ends(sh: Shape, e: Ends, l: usize) -> Ends
    requires { (Small sh) × (InWords e) }
    ensures { (result ≡ bare_ends sh e l) × (InWords result) }
{
    Ends {
        half: 2 * sh.edges as usize + 1,
        lone: l,
        ..ends_at(e.solid, e.root, e.faces, 1, 1)
    }
}
