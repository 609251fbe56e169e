// The five calls that are lent a session, with the session by value: each takes it, and gives the one to leave beside
// its answer. The entry points of crate `kernel` lend theirs by reference and do nothing else.

#![tactic(auto)]

ghost use Rattle.std.specs.Prelude.{◌≡◌};
ghost use Rattle.sessions.specs.Session.{onward, Clears, Runs, Undoes, Redoes, Inverts};

use runs::answers::RunAnswer;
use runs_move::move_operators;
use sessions::{Left, RedoAnswer, Session, UndoAnswer};
use table::clear::ClearAnswer;
use takedown::answer::InvertAnswer;

// Clears the table and starts both logs at their ends; a refusal leaves the session.
pub fn clear(
    links: &mut [u16],
    points: &mut [i32],
    log: usize,
    redo: usize,
    session: Session,
    s: u16,
    f: u16,
    l: u16,
    e: u16,
    v: u16,
) -> Left<ClearAnswer>
    ensures { Clears links.old points.old log redo session s f l e v result
        links.new points.new }
{
    let answer = table::clear::clear(links, points, s, f, l, e, v);
    if answer.refusal != 0 {
        return Left { answer, session };
    }
    Left {
        answer,
        session: Session { log, redo },
    }
}

// Where the redo log starts after a call that did so many operators: at its end, or where it did if none was done.
fn emptied(session: Session, redo: usize, done: usize) -> usize
    ensures { result ≡ (onward redo session done 0).redo }
{
    if done == 0 {
        return session.redo;
    }
    redo
}

// Runs a script.
pub fn run(
    links: &mut [u16],
    points: &mut [i32],
    log: &mut [u8],
    redo: usize,
    session: Session,
    script: &[u8],
) -> Left<RunAnswer>
    ensures { Runs links.old points.old log.old redo session
        script.now result links.new points.new log.new }
{
    let answer = runs_run::run(links, points, log, session.log, script);
    let start = emptied(session, redo, answer.done);
    let left = Session {
        log: answer.start,
        redo: start,
    };
    Left {
        answer,
        session: left,
    }
}

// Takes the table down.
pub fn invert(
    links: &mut [u16],
    points: &mut [i32],
    log: &mut [u8],
    redo: usize,
    session: Session,
) -> Left<InvertAnswer>
    ensures { Inverts links.old points.old log.old redo session result
        links.new points.new log.new }
{
    let answer = takedown_entry::invert::invert(links, points, log, session.log);
    let start = emptied(session, redo, answer.done);
    let left = Session {
        log: answer.start,
        redo: start,
    };
    Left {
        answer,
        session: left,
    }
}

// Undoes n operators: moves them out of the log, their inverses into the redo log.
pub fn undo(
    links: &mut [u16],
    points: &mut [i32],
    log: &[u8],
    redo: &mut [u8],
    session: Session,
    n: usize,
) -> Left<UndoAnswer>
    ensures { Undoes links.old points.old log.now redo.old
        session n result links.new points.new redo.new }
{
    let moved = move_operators(links, points, log, session.log, redo, session.redo, n);
    let left = Session {
        log: moved.from,
        redo: moved.to,
    };
    Left {
        answer: UndoAnswer::from(moved),
        session: left,
    }
}

// Redoes n operators: moves them out of the redo log, their inverses into the log.
pub fn redo(
    links: &mut [u16],
    points: &mut [i32],
    log: &mut [u8],
    redo: &[u8],
    session: Session,
    n: usize,
) -> Left<RedoAnswer>
    ensures { Redoes links.old points.old log.old redo.now
        session n result links.new points.new log.new }
{
    let moved = move_operators(links, points, redo, session.redo, log, session.log, n);
    let left = Session {
        log: moved.to,
        redo: moved.from,
    };
    Left {
        answer: RedoAnswer::from(moved),
        session: left,
    }
}
