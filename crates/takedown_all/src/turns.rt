// Turn after turn of the take-down.
ghost use Rattle.std.specs.Prelude.{◌≡◌, ℕ};
ghost use Rattle.layout.specs.Small.{Small};
ghost use Rattle.runs.specs.Run.{state};
ghost use Rattle.takedown.specs.Inversion as inversion;
ghost use Rattle.takedown.specs.Inversion.{begin};
ghost use Rattle.takedown.specs.Swift.{swift_by, entered};
ghost use Rattle.takedown_all.specs.Ending.{ended_at};

use layout::shape::Shape;
use takedown_acts::acts::Progress;
use takedown_ends::moves::enter;
use takedown_turns::turn::turn;

// Turns until no solid is in use or a turn lacks a number, at most E + V: how far they had come, as an error where a
// turn lacks a number.
pub fn invert_all(
    links: &mut [u16],
    points: &mut [i32],
    log: &mut [u8],
    sh: Shape,
    start: usize,
) -> Result<Progress, Progress>
    requires { Small sh }
    ensures { ended_at result links.new points.new log.new
        ≡ swift_by (inversion.turns sh) sh
        (entered sh 1 (begin (state links.old points.old log.old start))) }
{
    let turns = sh.edges as usize + sh.vertices as usize;
    let mut at = Progress { done: 0, start };
    let mut ends = enter(links, sh, 1);
    for _ in 0..turns {
        if ends.solid == 0 {
            return Ok(at);
        }
        let Some(stage) = turn(links, points, log, sh, at, ends) else {
            return Err(at);
        };
        at = stage.progress;
        ends = stage.ends;
    }
    Ok(at)
}
