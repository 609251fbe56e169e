// One operator of a script: read, admitted, carried out, its inverse logged. What refuses and what finds the inverse
// only reads, so that a refused operator changes nothing.
ghost use Rattle.std.specs.Prelude.{◌≡◌, ℕ, ◌-◌, ◌≤◌, ◌<◌, leb, length};
ghost use Rattle.codec.specs.Operands.{largests};
ghost use Rattle.script.specs.Operator.{operator_bytes};
ghost use Rattle.euler.specs.Exec.{limits};
ghost use Rattle.runs.specs.Run.{state, step_is, step_of};
ghost use Rattle.runs_take.specs.Take.{refused_in};
ghost use Rattle.runs_steps.specs.Standing.{Standing};
ghost use Rattle.runs_steps.specs.StepLaws.{step_next, step_start};

use bounds::ITEM_PLACES;
use euler_counted::counted::perform_counted;
use euler_inverses::inverses::inverse_of;
use layout::shape::Shape;
use refusals::Refusal;
use runs_take::take::{Refused, Taken, take};
use script::{Operator, operator_size, put_before};

// A step of a run that is done: the place behind its operator, and where the log's live part begins now.
#[derive(Clone, Copy)]
pub struct Step {
    pub next: usize,
    pub start: usize,
}

// Do the operator's bytes fit in front of `end`? None takes more than 27, so that near the log's front alone they are
// counted.
fn fits_before(op: Operator, end: usize) -> bool
    ensures { result ≡ leb (length (operator_bytes op)) end }
{
    if end >= 27 {
        return true;
    }
    operator_size(op) <= end
}

// One step of a run: the operator at a place of the script carried out, its inverse written just below the log's start;
// or refused with 3 to 8, then 9, and nothing changes.
pub fn run_step(
    links: &mut [u16],
    points: &mut [i32],
    log: &mut [u8],
    counts: &mut [u16; ITEM_PLACES],
    sh: Shape,
    start: usize,
    script: &[u8],
    at: usize,
    most: &[u32; 15],
    args: &mut [i32; 8],
) -> Result<Step, Refused>
    requires standing { Standing sh links.old points.old counts.old }
    requires most_value { (most.now ≡ largests (limits sh)) × (start ≤ length log.old) }
    ensures start_after { step_is (refused_in result) (step_next result)
        (state links.new points.new log.new (step_start start result))
        ≡ step_of sh (state links.old points.old log.old start)
        script.now at }
    ensures standing_2 { (Standing sh links.new points.new counts.new) × (step_start start result ≤ start) }
{
    let Taken { code, next } = take(links, counts, sh, script, at, most, args)?;
    let op = Operator {
        code,
        count: 0,
        args: *args,
    };
    let inverse = inverse_of(links, points, sh, op);
    if !fits_before(inverse, start) {
        return Err(Refused {
            refusal: Refusal::LogFull,
            next,
        });
    }
    perform_counted(links, points, counts, sh, code, args);
    let from = put_before(inverse, log, start);
    Ok(Step { next, start: from })
}
