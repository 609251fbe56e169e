// One operator of the take-down, carried out unasked: that each is accepted is theory.
ghost use Rattle.std.specs.Prelude.{◌≡◌, ℕ, ◌+◌, ◌-◌, ◌<◌};
ghost use Rattle.layout.specs.Small.{Small};
ghost use Rattle.takedown_acts.specs.Held.{held};
ghost use Rattle.takedown.specs.Inversion as inversion;

use euler_effects::effects::perform;
use euler_inverses::inverses::inverse_of;
use layout::shape::Shape;
use script::{Operator, operator_size, put_operator};

// How far it has come: the operators done, and the log's start. There are at most 8,192 turns of at most 4,099
// operators each; the bounds on `done` in the contracts below say no more than that counting does not wrap.
#[derive(Clone, Copy)]
pub struct Progress {
    pub done: usize,
    pub start: usize,
}

// One operator more, its inverse just below the log's start.
pub fn act(
    links: &mut [u16],
    points: &mut [i32],
    log: &mut [u8],
    sh: Shape,
    at: Progress,
    op: Operator,
) -> Progress
    requires { (Small sh) × (at.done < 1000000000) }
    ensures { (held result links.new points.new log.new
        ≡ inversion.act sh (held at links.old points.old log.old) op)
        × (result.done ≡ at.done + 1) }
{
    let inverse = inverse_of(links, points, sh, op);
    let size = operator_size(inverse);
    let start = at.start.saturating_sub(size);
    let args = op.args;
    perform(links, points, sh, op.code, &args);
    put_operator(inverse, log, start);
    Progress {
        done: at.done + 1,
        start,
    }
}
