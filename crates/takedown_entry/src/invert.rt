// The take-down of a table that may be any.
ghost use Rattle.std.specs.Prelude.{◌≡◌, ℕ, ◌+◌, ◌-◌, ◌*◌, ◌<◌, ◌≤◌, ltb, length};
ghost use Rattle.runs.specs.Run.{state, leaves};
ghost use Rattle.takedown.specs.Inversion as inversion;
ghost use Rattle.takedown.specs.Inversion.{invert_of};
ghost use Rattle.takedown_entry.specs.Entry.{Counted, answered};
ghost use Rattle.table.specs.Count.{count_of};

use layout::shape::shape_of;
use refusals::Refusal;
use table::count::{CountAnswer, count};
use takedown::answer::InvertAnswer;
use takedown_acts::acts::Progress;
use takedown_all::back::roll_back;
use takedown_all::turns::invert_all;

// The most operators that it takes: v + 2f + 2r + 3h − 2s.
fn bound(c: CountAnswer) -> usize
    requires { Counted c }
    ensures { (result ≡ inversion.bound c) × (result < 100000) }
{
    let more = c.vertices + 2 * c.faces + 2 * c.rings + 3 * c.holes;
    more.saturating_sub(2 * c.solids)
}

// Fewer than 19 × the bound bytes are free in front of the start.
fn is_short(c: CountAnswer, start: usize) -> bool
    requires { Counted c }
    ensures { result ≡ ltb start (19 * inversion.bound c) }
{
    let most = bound(c);
    start < 19 * most
}

// The answer: the operators done and the log's new start, or a refusal with nothing done.
fn answer(taken: Result<Progress, Refusal>, start: usize) -> InvertAnswer
    ensures { result ≡ answered taken start }
{
    match taken {
        Ok(at) => InvertAnswer {
            refusal: 0,
            rule: 0,
            done: at.done,
            start: at.start,
        },
        Err(refusal) => InvertAnswer {
            refusal: refusal.number(),
            rule: refusal.rule(),
            done: 0,
            start,
        },
    }
}

// A table that has been counted taken down to nothing, each operator with its inverse in the log; or, for want of a
// number, taken back to what it was.
fn taken_down(
    links: &mut [u16],
    points: &mut [i32],
    log: &mut [u8],
    start: usize,
    counts: CountAnswer,
) -> Result<Progress, Refusal>
    requires { (start ≤ length log.old) × (counts ≡ count_of links.old points.old) × (counts.refusal ≡ 0) }
    ensures { leaves (answered result start) links.new points.new log.new
        ≡ invert_of (state links.old points.old log.old start) }
{
    let sh = shape_of(links);
    if is_short(counts, start) {
        return Err(Refusal::LogFull);
    }
    match invert_all(links, points, log, sh, start) {
        Ok(at) => Ok(at),
        Err(at) => {
            roll_back(links, points, log, sh, at.start, at.done);
            Err(Refusal::NoNumberLeft)
        }
    }
}

// A sound table taken down to nothing; else a refusal.
pub fn invert(links: &mut [u16], points: &mut [i32], log: &mut [u8], start: usize) -> InvertAnswer
    ensures { leaves result links.new points.new log.new
        ≡ invert_of (state links.old points.old log.old start) }
{
    if start > log.len() {
        return answer(Err(Refusal::Memory), start);
    }
    // Kept: the count refuses with the numbers of the C interface.
    let counts = count(links, points);
    if counts.refusal != 0 {
        return InvertAnswer {
            refusal: counts.refusal,
            rule: counts.rule,
            done: 0,
            start,
        };
    }
    answer(taken_down(links, points, log, start, counts), start)
}
