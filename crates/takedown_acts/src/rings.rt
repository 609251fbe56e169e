// A: a loop is made outer, and rings move to the root.
ghost use Rattle.std.specs.Prelude.{◌≡◌, ℕ, ◌+◌, ◌-◌, ◌<◌, ◌≤◌};
ghost use Rattle.bounds.specs.Bounds.{item_places};
ghost use Rattle.layout.specs.Small.{Small};
ghost use Rattle.takedown.specs.Inversion.{make_outer, move_rings, moved_ring};
ghost use Rattle.takedown_acts.specs.Held.{held};

use crate::acts::{Progress, act};
use euler::faces::is_ring;
use layout::shape::Shape;
use takedown_plans::operators::rmov;
use takedown_search::tests::is_ring_of;

// Loop l becomes the outer loop of its face f, where it is a ring.
pub fn make_outer(
    links: &mut [u16],
    points: &mut [i32],
    log: &mut [u8],
    sh: Shape,
    at: Progress,
    l: usize,
    f: usize,
) -> Progress
    requires { (Small sh) × (at.done < 1000000000) × (l < 65536) × (f < 65536) }
    ensures { (held result links.new points.new log.new
        ≡ make_outer sh l f (held at links.old points.old log.old))
        × (result.done ≤ at.done + 1) }
{
    if is_ring(links, sh, l) {
        return act(links, points, log, sh, at, rmov(l, f));
    }
    at
}

// Loop i moves to the root r, where it is a ring of face g.
fn move_ring(
    links: &mut [u16],
    points: &mut [i32],
    log: &mut [u8],
    sh: Shape,
    at: Progress,
    i: usize,
    g: usize,
    r: usize,
) -> Progress
    requires { (Small sh) × (at.done < 1000000000) × (i < 65536) × (r < 65536) }
    ensures { (held result links.new points.new log.new
        ≡ moved_ring sh i g r (held at links.old points.old log.old))
        × (result.done ≤ at.done + 1) }
{
    if is_ring_of(links, sh, g, i) {
        return act(links, points, log, sh, at, rmov(i, r));
    }
    at
}

// The rings of face g from number `low` on move to the root r, by number.
pub fn move_rings(
    links: &mut [u16],
    points: &mut [i32],
    log: &mut [u8],
    sh: Shape,
    mut at: Progress,
    low: usize,
    g: usize,
    r: usize,
) -> Progress
    requires { (Small sh) × (at.done < 900000000) × (r < 65536) }
    ensures { (held result links.new points.new log.new
        ≡ move_rings sh (sh.loops + 1 - low) low g r
        (held at links.old points.old log.old)) × (result.done ≤ at.done + item_places) }
{
    for i in low..=sh.loops as usize {
        at = move_ring(links, points, log, sh, at, i, g, r);
    }
    at
}
