// The way back: what the turns have logged is read and carried out, and the table is the one that was handed in.
ghost use Rattle.std.specs.Prelude.{◌≡◌, ℕ};
ghost use Rattle.layout.specs.Small.{Small};
ghost use Rattle.runs.specs.Run.{state};
ghost use Rattle.takedown.specs.Swift.{undone};

use euler_effects::effects::perform;
use layout::shape::Shape;
use runs::enter::limits_of;
use script::read_within;

// The first n operators of the log from `start` on, carried out unlogged and unasked: that each is accepted is theory.
pub fn roll_back(
    links: &mut [u16],
    points: &mut [i32],
    log: &[u8],
    sh: Shape,
    start: usize,
    n: usize,
)
    requires { Small sh }
    ensures { (links.new
        ≡ (undone n sh (state links.old points.old log.now start)).links)
        × (points.new
        ≡ (undone n sh (state links.old points.old log.now start)).points) }
{
    let limits = limits_of(sh);
    let mut at = start;
    for _ in 0..n {
        let read = read_within(log, at, limits);
        let args = read.op.args;
        perform(links, points, sh, read.op.code, &args);
        at = read.next;
    }
}
