// A turn of the solid at hand.
ghost use Rattle.std.specs.Prelude.{◌≡◌, ℕ, ◌+◌, ◌<◌, ◌≤◌};
ghost use Rattle.layout.specs.Small.{Small};
ghost use Rattle.takedown.specs.Inversion as inversion;
ghost use Rattle.takedown.specs.Swift.{entered};
ghost use Rattle.takedown_ends.specs.InWords.{InWords};
ghost use Rattle.takedown_acts.specs.Held.{held};
ghost use Rattle.takedown_across.specs.Passing.{staged};
ghost use Rattle.takedown_plans.specs.Plans.{carried};
ghost use Rattle.takedown_turns.specs.Turning.{Turned};

use layout::shape::Shape;
use takedown::ends::Ends;
use takedown_across::across::{Stage, across};
use takedown_acts::acts::{Progress, act};
use takedown_ends::moves::enter;
use takedown_plans::operators::kvsf;
use takedown_plans::plans::{Plan, bridge_plan, edges_plan};
use takedown_search::seek::seek;
use takedown_search::tests::{is_ring_of, of_solid};

// The operators of a plan.
fn carry(
    links: &mut [u16],
    points: &mut [i32],
    log: &mut [u8],
    sh: Shape,
    at: Progress,
    plan: Plan,
) -> Stage
    requires { (Small sh) × (at.done < 900000000) }
    ensures { (staged result links.new points.new log.new ≡ carried sh plan (held at links.old points.old log.old))
        × (result.progress.done ≤ at.done + 2) × (result.ends ≡ plan.ends) }
{
    let first = act(links, points, log, sh, at, plan.first);
    let progress = match plan.second {
        Some(second) => act(links, points, log, sh, first, second),
        None => first,
    };
    Stage {
        progress,
        ends: plan.ends,
    }
}

// Its last operator, and the next solid is entered.
fn last(
    links: &mut [u16],
    points: &mut [i32],
    log: &mut [u8],
    sh: Shape,
    at: Progress,
    s: usize,
) -> Stage
    requires { (Small sh) × (at.done < 900000000) × (s < 65536) }
    ensures { (staged result links.new points.new log.new
        ≡ entered sh s
        (inversion.act sh (held at links.old points.old log.old) (inversion.kvsf s)))
        × (result.progress.done ≤ at.done + 1) × (InWords result.ends) }
{
    let a = act(links, points, log, sh, at, kvsf(s));
    let ends = enter(links, sh, s);
    Stage { progress: a, ends }
}

// A while another face is left, B while edges are left, C by the root's rings, last kvsf. Where B or C calls for a
// number of which none is left, nothing changes.
pub fn turn(
    links: &mut [u16],
    points: &mut [i32],
    log: &mut [u8],
    sh: Shape,
    at: Progress,
    e: Ends,
) -> Option<Stage>
    requires { (Small sh) × (at.done < 800000000) × (InWords e) }
    ensures { Turned sh e at links.old points.old log.old result links.new points.new log.new }
{
    if e.faces != 1 {
        return Some(across(links, points, log, sh, at, e));
    }
    let halves = 2 * sh.edges as usize;
    let half = seek(e.half, halves, |k| of_solid(links, sh, e.solid, k));
    if half != 0 {
        let plan = edges_plan(links, sh, e, half)?;
        return Some(carry(links, points, log, sh, at, plan));
    }
    let l = seek(
        e.lone,
        sh.loops as usize,
        |l| is_ring_of(links, sh, e.root, l),
    );
    if l != 0 {
        let plan = bridge_plan(links, sh, e, l)?;
        return Some(carry(links, points, log, sh, at, plan));
    }
    Some(last(links, points, log, sh, at, e.solid))
}
