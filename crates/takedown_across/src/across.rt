// A: while another face is left. A half-edge k of another face has its mate in the root: if its loop is a ring it is
// made outer; the rings of its face move to the root; kef k.
ghost use Rattle.std.specs.Prelude.{◌≡◌, ℕ, ◌+◌, ◌-◌, ◌*◌, ◌<◌, ◌≤◌, eqb};
ghost use Rattle.layout.specs.Small.{Small};
ghost use Rattle.takedown.specs.Inversion as inversion;
ghost use Rattle.takedown.specs.Inversion.{act, outside};
ghost use Rattle.takedown.specs.Swift as swift;
ghost use Rattle.takedown.specs.Swift.{seek};
ghost use Rattle.takedown_ends.specs.InWords.{InWords};
ghost use Rattle.takedown_acts.specs.Held.{held};
ghost use Rattle.takedown_across.specs.Passing.{staged, moved_by, Words, Planned};

use euler::faces::is_ring;
use euler::records::choose;
use layout::columns::{loop_of, next_of, side_of};
use layout::shape::Shape;
use takedown::ends::Ends;
use takedown_acts::acts::{Progress, act};
use takedown_acts::rings::{make_outer, move_rings};
use takedown_ends::moves::across_ends;
use takedown_ends::walks::least_mate;
use takedown_plans::operators::kef;
use takedown_search::seek::seek;
use takedown_search::tests::{is_outside, is_stray};

// A stage of the work: how far it has come, and what is carried on to the next turn.
#[derive(Clone, Copy)]
pub struct Stage {
    pub progress: Progress,
    pub ends: Ends,
}

// What a turn of A reads before it changes anything: the half-edge with its mate in the root, its loop and face, the
// first loop that may have to move, the least ring of a face that is not the root, and the least mate of the
// half-edges of k's loop.
#[derive(Clone, Copy)]
pub struct Passage {
    pub half: usize,
    pub own: usize,
    pub face: usize,
    pub low: usize,
    pub stray: usize,
    pub near: usize,
}

// How far it has come, and whether no ring had to move.
#[derive(Clone, Copy)]
pub struct Passed {
    pub progress: Progress,
    pub still: bool,
}

// The least ring of another face of the solid than the root, or the number behind the last loop.
fn stray_from(links: &[u16], sh: Shape, e: Ends) -> usize
    requires { Small sh }
    ensures { (result ≡ swift.loop_from sh links.now e) × (result < 65536) }
{
    let n = sh.loops as usize;
    let l = seek(e.stray, n, |l| is_stray(links, sh, e.solid, e.root, l));
    if l != 0 {
        return l;
    }
    n + 1
}

fn passage_of(links: &[u16], sh: Shape, e: Ends) -> Passage
    requires { Small sh }
    ensures { (Planned sh links.now e result) × (Words result) }
{
    let n = 2 * sh.edges as usize;
    let half = seek(e.border, n, |k| is_outside(links, sh, e.root, k));
    let own = loop_of(links, sh, half);
    let ring = is_ring(links, sh, own);
    let stray = stray_from(links, sh, e);
    let next = next_of(links, sh, half);
    Passage {
        half,
        own,
        face: side_of(links, sh, half),
        low: choose(ring, 1, stray),
        stray,
        near: least_mate(links, sh, n, next, half, half),
    }
}

// The rings of k's face moved to the root, and kef k.
fn pass(
    links: &mut [u16],
    points: &mut [i32],
    log: &mut [u8],
    sh: Shape,
    at: Progress,
    p: Passage,
    root: usize,
) -> Passed
    requires { (Small sh) × (at.done < 800000000) × (root < 65536) × (Words p) }
    ensures { (held result.progress links.new points.new log.new
        ≡ act sh (moved_by sh p root (held at links.old points.old log.old))
        (inversion.kef p.half))
        × (result.still
        ≡ eqb (moved_by sh p root (held at links.old points.old log.old)).done
        at.done) × (result.progress.done ≤ at.done + 4099) }
{
    let a = make_outer(links, points, log, sh, at, p.own, p.face);
    let b = move_rings(links, points, log, sh, a, p.low, p.face, root);
    let c = act(links, points, log, sh, b, kef(p.half));
    Passed {
        progress: c,
        still: b.done == at.done,
    }
}

// A turn of A. It calls for no free number.
pub fn across(
    links: &mut [u16],
    points: &mut [i32],
    log: &mut [u8],
    sh: Shape,
    at: Progress,
    e: Ends,
) -> Stage
    requires { (Small sh) × (at.done < 800000000) × (InWords e) }
    ensures { (staged result links.new points.new log.new
        ≡ swift.across sh e links.old
        (seek (2 * sh.edges) e.border (outside sh links.old e.root))
        (held at links.old points.old log.old))
        × (result.progress.done ≤ at.done + 4099) × (InWords result.ends) }
{
    let p = passage_of(links, sh, e);
    let q = pass(links, points, log, sh, at, p, e.root);
    let progress = q.progress;
    let ends = across_ends(e, q.still, p.near, p.stray);
    Stage { progress, ends }
}
