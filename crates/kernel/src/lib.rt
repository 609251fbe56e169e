// The kernel as its users meet it: every entry point, in the order in which they need it. Each takes any bytes
// whatever, checks for itself, and answers a refusal by its number in document 01 or 02; none asks anything of its
// caller. For C they are in include/zoghvari.h.

#![tactic(auto)]

ghost use Rattle.std.specs.Prelude.{◌≡◌};
ghost use Rattle.codec.specs.Operands.{widest};
ghost use Rattle.script.specs.Operator.{read_operator, write_operator, written};
ghost use Rattle.table.specs.Check.{check_of};
ghost use Rattle.table.specs.Count.{count_of};
ghost use Rattle.sessions.specs.Session.{Clears, Runs, Undoes, Redoes, Inverts};
ghost use Rattle.wavefront.specs.Obj.{texted, obj_of};
ghost use Rattle.kernel.specs.Kernel.{KeepsFormula};

use runs::answers::RunAnswer;
use script::{Operator, ReadAnswer, WriteAnswer};
use sessions::{RedoAnswer, Session, UndoAnswer};
use table::check::CheckAnswer;
use table::clear::ClearAnswer;
use table::count::CountAnswer;
use takedown::answer::InvertAnswer;
use wavefront::answer::TextAnswer;

// Makes an empty table of five capacities: solids, faces, loops, edges, vertices. Refusal 1, or 0 and both logs start
// at their ends; of them only the lengths are handed in.
#[unsafe(no_mangle)]
pub extern "C" fn zoghvari_clear(
    links: &mut [u16],
    points: &mut [i32],
    log: usize,
    redo: usize,
    session: &mut Session,
    s: u16,
    f: u16,
    l: u16,
    e: u16,
    v: u16,
) -> ClearAnswer
    ensures { Clears links.old points.old log redo session.old s f l e v
        (record { answer = result; session = session.new }) links.new points.new }
{
    sessions_entry::clear(links, points, log, redo, *session, s, f, l, e, v).leave_in(session)
}

// Whether a table is sound: refusal 1, or 2 with the lowest broken rule, or 0.
#[unsafe(no_mangle)]
pub extern "C" fn zoghvari_check(links: &[u16], points: &[i32]) -> CheckAnswer
    ensures { result ≡ check_of links.now points.now }
{
    table::check::check(links, points)
}

// How many items a sound table has in use, its rings and its holes; refusal 1 or 2 as in the check. The counts of a
// sound table keep Euler's formula, v − e + f = 2 (s − h) + r.
#[unsafe(no_mangle)]
pub extern "C" fn zoghvari_count(links: &[u16], points: &[i32]) -> CountAnswer
    ensures { (result ≡ count_of links.now points.now) × (KeepsFormula result) }
{
    table::count::count(links, points)
}

// The operator that stands at `at` in a script, read without a table: refusal 3, 4 or 5, or the operator and the place
// behind it.
#[unsafe(no_mangle)]
pub extern "C" fn zoghvari_read(script: &[u8], at: usize) -> ReadAnswer
    ensures { result ≡ read_operator widest script.now at }
{
    script::read_operator(script, at)
}

// Writes an operator at the front of `out`: refusal 4 or 5, then 9 where it does not fit, with `out` left as it is.
#[unsafe(no_mangle)]
pub extern "C" fn zoghvari_write(op: Operator, out: &mut [u8]) -> WriteAnswer
    ensures { written result out.new ≡ write_operator op out.old }
{
    script::write_operator(op, out)
}

// Runs a script on a table, each operator with its inverse in the log below its start: refusal 1, or 2 with the rule;
// else the refusal of the first operator that is refused, 3 to 9, or 0; the operators done, the script bytes they took,
// and the log's new start. If an operator was done the redo log, of which only the length is handed in, is emptied.
#[unsafe(no_mangle)]
pub extern "C" fn zoghvari_run(
    links: &mut [u16],
    points: &mut [i32],
    log: &mut [u8],
    redo: usize,
    session: &mut Session,
    script: &[u8],
) -> RunAnswer
    ensures { Runs links.old points.old log.old redo session.old
        script.now (record { answer = result; session = session.new }) links.new
        points.new log.new }
{
    sessions_entry::run(links, points, log, redo, *session, script).leave_in(session)
}

// Undoes the last n operators by the log's live part, and writes the inverse of each into the redo log below its start;
// no byte of the log changes. Refusal 1, or 2 with the rule; else 3 to 8 of a log that no run wrote, 9 where the redo
// log has no room, 11 where the log ends too soon, or 0; the operators undone and the log's new start.
#[unsafe(no_mangle)]
pub extern "C" fn zoghvari_undo(
    links: &mut [u16],
    points: &mut [i32],
    log: &[u8],
    redo: &mut [u8],
    session: &mut Session,
    n: usize,
) -> UndoAnswer
    ensures { Undoes links.old points.old log.now redo.old
        session.old n (record { answer = result; session = session.new }) links.new
        points.new redo.new }
{
    sessions_entry::undo(links, points, log, redo, *session, n).leave_in(session)
}

// Redoes the last n operators that were undone, by the redo log's live part, each with its inverse in the log as in a
// run; no byte of the redo log changes. Refusal 1, or 2 with the rule; else 3 to 8 of a redo log that no undo wrote, 9
// where the log has no room, 11 where the redo log ends too soon, or 0; and the operators done.
#[unsafe(no_mangle)]
pub extern "C" fn zoghvari_redo(
    links: &mut [u16],
    points: &mut [i32],
    log: &mut [u8],
    redo: &[u8],
    session: &mut Session,
    n: usize,
) -> RedoAnswer
    ensures { Redoes links.old points.old log.old redo.now
        session.old n (record { answer = result; session = session.new }) links.new
        points.new log.new }
{
    sessions_entry::redo(links, points, log, redo, *session, n).leave_in(session)
}

// Takes a sound table down to nothing (document 01: the take-down), each operator with its inverse in the log below its
// start, so that the part of the log from the new start up to the old one is a script that builds the table again.
// Refusal 1, or 2 with the rule; 9 where fewer than 19 (v + 2f + 2r + 3h − 2s) bytes are free; 10 where a step lacked a
// free face, loop or edge number, and what was done before it is taken back; or 0; the operators done and the log's new
// start. If an operator was done the redo log is emptied.
#[unsafe(no_mangle)]
pub extern "C" fn zoghvari_invert(
    links: &mut [u16],
    points: &mut [i32],
    log: &mut [u8],
    redo: usize,
    session: &mut Session,
) -> InvertAnswer
    ensures { Inverts links.old points.old log.old redo session.old
        (record { answer = result; session = session.new }) links.new points.new
        log.new }
{
    sessions_entry::invert(links, points, log, redo, *session).leave_in(session)
}

// Writes solid s of a sound table at the front of `out` as Wavefront OBJ text, each loop backwards: a loop that is
// clockwise seen from outside comes out counterclockwise. Refusal 1, or 2 with the rule; 5 for no number of a solid, 6
// for a free one, 12 where a face has a ring, a lone loop or under three sides, 13 where the text does not fit; or 0.
// The text's length is answered with 0 and with 13. `out` is left as it is by a refusal, and behind the text.
#[unsafe(no_mangle)]
pub extern "C" fn zoghvari_obj(
    links: &[u16],
    points: &[i32],
    s: usize,
    out: &mut [u8],
) -> TextAnswer
    ensures { texted result.refusal result.rule result.length out.new
        ≡ obj_of links.now points.now s out.old }
{
    wavefront_entry::obj::obj(links, points, s, out)
}
