// B and C: the one or two operators of a turn, found by reading alone.
ghost use Rattle.std.specs.Prelude.{◌≡◌, ℕ, ◌+◌, ◌-◌, ◌*◌, ◌<◌, ◌≤◌, eqb};
ghost use Rattle.layout.specs.Layout.{face_outer, loop_of};
ghost use Rattle.layout.specs.Small.{Small};
ghost use Rattle.takedown.specs.Inversion.{Work, free_face, free_edge, free_loop, in_ring, turn_ring, turn_c, act};
ghost use Rattle.takedown.specs.Inversion as inversion;
ghost use Rattle.takedown.specs.Swift.{seek, ring_ends, spur_ends, cross_ends, bare_ends, ring_turn, ring_lacks};
ghost use Rattle.takedown_ends.specs.InWords.{InWords};
ghost use Rattle.takedown_plans.specs.Plans.{carried, swift_is, PlanFor};

use crate::operators::{kef, kemr, kev, mekr, mfkrh};
use layout::columns::{face_outer, loop_of};
use layout::shape::Shape;
use script::Operator;
use takedown::ends::Ends;
use takedown_ends::moves::{bare_ends, cross_ends, ring_ends, spur_ends, with_half};
use takedown_ends::tips::spur_from;
use takedown_search::free::{free_edge, free_face, free_loop};
use takedown_search::seek::seek;
use takedown_search::tests::{in_ring, is_crossed};

// The operators of a turn, the second only where there are two, and what is carried on.
#[derive(Clone, Copy)]
pub struct Plan {
    pub first: Operator,
    pub second: Option<Operator>,
    pub ends: Ends,
}

// The ring of half-edge k becomes the least free face, then kef k; nothing where no face is left.
fn ring_plan(links: &[u16], sh: Shape, e: Ends, k: usize) -> Option<Plan>
    requires { (Small sh) × (InWords e) × (k < 65536) }
    ensures { PlanFor sh result (eqb (free_face sh links.now) 0)
        (λ w. swift_is (turn_ring sh k (loop_of sh links.now k) (free_face sh links.now) w)
        (ring_ends sh links.now e k)) }
{
    let l = loop_of(links, sh, k);
    let f = free_face(links, sh);
    if f == 0 {
        return None;
    }
    Some(Plan {
        first: mfkrh(l, f),
        second: Some(kef(k)),
        ends: ring_ends(links, sh, e, k),
    })
}

// The spur k goes.
fn spur_plan(links: &[u16], sh: Shape, e: Ends, k: usize) -> Plan
    requires { (Small sh) × (InWords e) × (k < 65536) }
    ensures { ((w : Work) → carried sh result w ≡ swift_is (act sh w (inversion.kev k)) (spur_ends sh links.now e k))
        × (InWords result.ends) }
{
    Plan {
        first: kev(k),
        second: None,
        ends: spur_ends(links, sh, e, k),
    }
}

// The crossed edge of k goes, and what lies between k and its mate becomes the least free loop; nothing where no loop
// is left.
fn cross_plan(links: &[u16], sh: Shape, e: Ends, k: usize) -> Option<Plan>
    requires { (Small sh) × (InWords e) × (k < 65536) }
    ensures { PlanFor sh result (eqb (free_loop sh links.now) 0)
        (λ w. swift_is (act sh w (inversion.kemr k (free_loop sh links.now))) (cross_ends sh links.now e k)) }
{
    let l = free_loop(links, sh);
    if l == 0 {
        return None;
    }
    Some(Plan {
        first: kemr(k, l),
        second: None,
        ends: cross_ends(links, sh, e, k),
    })
}

// B, `half` the first half-edge of the solid: a ring's half-edge with its mate in another loop; if none, a spur; if
// none, a crossed edge. Nothing where a number is called for of which none is left.
pub fn edges_plan(links: &[u16], sh: Shape, e: Ends, half: usize) -> Option<Plan>
    requires { (Small sh) × (InWords e) }
    ensures { PlanFor sh result
        (ring_lacks sh e links.now (seek (2 * sh.edges) e.ring (in_ring sh links.now e.solid)))
        (ring_turn sh e links.now half (seek (2 * sh.edges) e.ring (in_ring sh links.now e.solid))) }
{
    let on = with_half(e, half);
    let n = 2 * sh.edges as usize;
    let ring = seek(e.ring, n, |k| in_ring(links, sh, e.solid, k));
    if ring != 0 {
        return ring_plan(links, sh, on, ring);
    }
    let spur = spur_from(links, sh, e);
    if spur != 0 {
        return Some(spur_plan(links, sh, on, spur));
    }
    let k = seek(e.cross, n, |k| is_crossed(links, sh, e.solid, k));
    cross_plan(links, sh, on, k)
}

// C: mekr from the outer loop of the root to its ring l by the least free edge, then kev of that edge's first half;
// nothing where no edge is left.
pub fn bridge_plan(links: &[u16], sh: Shape, e: Ends, l: usize) -> Option<Plan>
    requires { (Small sh) × (InWords e) × (l < 65536) }
    ensures { PlanFor sh result (eqb (free_edge sh links.now) 0)
        (λ w. swift_is (turn_c sh (face_outer sh links.now e.root) l (free_edge sh links.now) w) (bare_ends sh e l)) }
{
    let outer = face_outer(links, sh, e.root);
    let edge = free_edge(links, sh);
    if edge == 0 {
        return None;
    }
    Some(Plan {
        first: mekr(outer, l, edge),
        second: Some(kev(2 * edge - 1)),
        ends: bare_ends(sh, e, l),
    })
}
