// The session that an editor lends, and what the five calls that are lent one answer (document 02, job 4).

#![tactic(auto)]

ghost use Rattle.std.specs.Prelude.{◌≡◌};

use runs::answers::MoveAnswer;

// Where the live parts of the log and of the redo log start.
#[repr(C)]
#[derive(Clone, Copy)]
pub struct Session {
    pub log: usize,
    pub redo: usize,
}

// What undo answers: the refusal, 0 for none; with refusal 2 the broken rule; the operators undone and the log's new
// start.
#[repr(C)]
#[derive(Clone, Copy)]
pub struct UndoAnswer {
    pub refusal: u8,
    pub rule: u8,
    pub undone: usize,
    pub start: usize,
}

impl From<MoveAnswer> for UndoAnswer {
    ghost from_gives = { λ m u. u
        ≡ record { refusal = m.refusal; rule = m.rule; undone = m.done; start = m.from } };

    fn from(moved: MoveAnswer) -> UndoAnswer {
        UndoAnswer {
            refusal: moved.refusal,
            rule: moved.rule,
            undone: moved.done,
            start: moved.from,
        }
    }
}

// What redo answers: the refusal, 0 for none; with refusal 2 the broken rule; the operators done again.
#[repr(C)]
#[derive(Clone, Copy)]
pub struct RedoAnswer {
    pub refusal: u8,
    pub rule: u8,
    pub done: usize,
}

impl From<MoveAnswer> for RedoAnswer {
    ghost from_gives = { λ m r. r ≡ record { refusal = m.refusal; rule = m.rule; done = m.done } };

    fn from(moved: MoveAnswer) -> RedoAnswer {
        RedoAnswer {
            refusal: moved.refusal,
            rule: moved.rule,
            done: moved.done,
        }
    }
}

// An answer with the session that the call leaves.
#[derive(Clone, Copy)]
pub struct Left<A> {
    pub answer: A,
    pub session: Session,
}

impl<A> Left<A> {
    // The answer; the session is left where it was lent.
    pub fn leave_in(self, session: &mut Session) -> A
        ensures { (result ≡ self.answer) × (session.new ≡ self.session) }
    {
        let Left {
            answer,
            session: left,
        } = self;
        *session = left;
        answer
    }
}
