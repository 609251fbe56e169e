// Operators moved from one log to another: undo moves them from the log to the redo log, redo moves them back. No byte
// of the source changes.

#![tactic(auto)]

ghost use Rattle.std.specs.Prelude.{◌≡◌};
ghost use Rattle.runs.specs.Run.{state, leaves};
ghost use Rattle.runs.specs.Move.{due_refusal, move_of};

use refusals::Refusal;
use runs::answers::{MoveAnswer, RunAnswer};
use runs_run::run_part;

// Kept: a number, as the run's answer has it, which is that of C.
// The refusal of a run by which n operators were due: 11 where it did fewer and was not refused.
fn due_refusal(n: usize, r: RunAnswer) -> u8
    ensures { result ≡ due_refusal n r }
{
    if r.refusal == 0 && r.done < n {
        return Refusal::LogEnded.number();
    }
    r.refusal
}

// n operators of the source's live part, run with their inverses in the destination, on a table that may be any.
pub fn move_operators(
    links: &mut [u16],
    points: &mut [i32],
    source: &[u8],
    from: usize,
    destination: &mut [u8],
    to: usize,
    n: usize,
) -> MoveAnswer
    ensures { leaves result links.new points.new destination.new
        ≡ move_of source.now from
        (state links.old points.old destination.old to) n }
{
    if from > source.len() {
        return MoveAnswer {
            refusal: Refusal::Memory.number(),
            rule: 0,
            done: 0,
            from,
            to,
        };
    }
    let r = run_part(links, points, destination, to, source, from, n);
    MoveAnswer {
        refusal: due_refusal(n, r),
        rule: r.rule,
        done: r.done,
        from: r.used,
        to: r.start,
    }
}
