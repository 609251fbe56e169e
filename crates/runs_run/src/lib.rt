// Running a script: operator after operator up to the script's end or the first refusal, each with its inverse in the
// log. Undo and redo run a part of a log in the same way. The loops of each face are counted once, and kept up from
// there.

#![tactic(auto)]

ghost use Rattle.std.specs.Prelude.{◌≡◌, ℕ, ◌≤◌, length};
ghost use Rattle.codec.specs.Operands.{largests};
ghost use Rattle.euler.specs.Exec.{limits};
ghost use Rattle.runs.specs.Run.{state, leaves, run_from, run_of};
ghost use Rattle.runs.specs.Move.{part_of};
ghost use Rattle.runs_steps.specs.Standing.{Standing};

use bounds::ITEM_PLACES;
use euler_counts::counts::fill_counts;
use layout::shape::{Shape, shape_of};
use runs::answers::RunAnswer;
use runs::enter::{enter, ranges_of};
use runs_steps::steps::run_step;

// A run that stopped so, let in: no rule is broken.
fn ran(refusal: u8, done: usize, used: usize, start: usize) -> RunAnswer
    ensures { result ≡ record { refusal = refusal; rule = 0; done = done; used = used; start = start } }
{
    RunAnswer {
        refusal,
        rule: 0,
        done,
        used,
        start,
    }
}

// At most n operators of the script from a place on.
fn run_some(
    links: &mut [u16],
    points: &mut [i32],
    log: &mut [u8],
    counts: &mut [u16; ITEM_PLACES],
    sh: Shape,
    start: usize,
    script: &[u8],
    from: usize,
    n: usize,
    most: &[u32; 15],
) -> RunAnswer
    requires standing { Standing sh links.old points.old counts.old }
    requires most_value { (most.now ≡ largests (limits sh)) × (start ≤ length log.old) }
    ensures { leaves result links.new points.new log.new
        ≡ run_from n sh script.now from 0
        (state links.old points.old log.old start) }
{
    let mut args = [0i32; 8];
    let mut at = from;
    let mut low = start;
    for done in 0..n {
        if at >= script.len() {
            return ran(0, done, at, low);
        }
        let stepped = run_step(
            links, points, log, counts, sh, low, script, at, most, &mut args,
        );
        match stepped {
            Ok(step) => {
                at = step.next;
                low = step.start;
            }
            Err(e) => return ran(e.refusal.number(), done, at, low),
        }
    }
    ran(0, n, at, low)
}

// At most n operators of a script or log from a place on, on a table that may be any.
pub fn run_part(
    links: &mut [u16],
    points: &mut [i32],
    log: &mut [u8],
    start: usize,
    script: &[u8],
    from: usize,
    n: usize,
) -> RunAnswer
    ensures { leaves result links.new points.new log.new
        ≡ part_of (state links.old points.old log.old start)
        script.now from n }
{
    if let Err(refusal) = enter(links, points, log, start) {
        return RunAnswer {
            rule: refusal.rule(),
            ..ran(refusal.number(), 0, from, start)
        };
    }
    let sh = shape_of(links);
    let most = ranges_of(sh);
    let mut counts = [0u16; ITEM_PLACES];
    fill_counts(links, sh, &mut counts);
    run_some(
        links,
        points,
        log,
        &mut counts,
        sh,
        start,
        script,
        from,
        n,
        &most,
    )
}

// A script run on a table that may be any: there are no more operators than bytes.
pub fn run(
    links: &mut [u16],
    points: &mut [i32],
    log: &mut [u8],
    start: usize,
    script: &[u8],
) -> RunAnswer
    ensures { leaves result links.new points.new log.new
        ≡ run_of (state links.old points.old log.old start)
        script.now }
{
    let n = script.len();
    run_part(links, points, log, start, script, 0, n)
}
