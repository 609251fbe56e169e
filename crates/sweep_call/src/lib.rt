// The sweep with the session by value: the refusals, then one run of the script. The entry point of crate `sweep` lends
// its session by reference and does nothing else. No word of the table is written here but by the run.

#![tactic(auto)]

ghost use Rattle.std.specs.Prelude.{◌≡◌};
ghost use Rattle.chains.specs.Whole.{answered};
ghost use Rattle.sweeps.specs.Swept.{Sweeps};

use crate::plan::{SCRIPT_BYTES, plan};
use chains::DoneAnswer;
use layout::shape::shape_of;
use runs::enter::enter;
use sessions::{Left, Session};
use sweeps::Vector;

pub mod plan; // the script of a sweep, or its refusal
pub mod early; // the face, lone loops, points, free numbers

// An answer beside the session.
fn answered(refusal: u8, rule: u8, done: usize, session: Session) -> Left<DoneAnswer>
    ensures { result ≡ answered refusal rule done session }
{
    let answer = DoneAnswer {
        refusal,
        rule,
        done,
    };
    Left { answer, session }
}

// Lifts a face by a vector: refusal 1, or 2 with the rule; else the refusals of `plan`; else the run of its script.
pub fn sweep(
    links: &mut [u16],
    points: &mut [i32],
    log: &mut [u8],
    redo: usize,
    session: Session,
    face: usize,
    dx: i32,
    dy: i32,
    dz: i32,
) -> Left<DoneAnswer>
    ensures { Sweeps links.old points.old log.old redo session face dx dy dz result
        links.new points.new log.new }
{
    if let Err(refusal) = enter(links, points, log, session.log) {
        return answered(refusal.number(), refusal.rule(), 0, session);
    }
    let mut script = [0u8; SCRIPT_BYTES];
    let v = Vector {
        x: dx,
        y: dy,
        z: dz,
    };
    match plan(
        links,
        points,
        shape_of(links),
        session.log,
        face,
        v,
        &mut script,
    ) {
        Err(refusal) => answered(refusal.number(), 0, 0, session),
        Ok(planned) => {
            let left = sessions_entry::run(
                links,
                points,
                log,
                redo,
                session,
                &script[..planned.length],
            );
            answered(
                left.answer.refusal,
                left.answer.rule,
                left.answer.done,
                left.session,
            )
        }
    }
}
