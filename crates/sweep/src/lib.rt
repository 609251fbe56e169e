// The sweep as its users meet it, a product above the kernel: one entry point. It takes any bytes whatever, checks for
// itself, and answers a refusal by its number in document 01 or 02; it asks nothing of its caller. For C it is in
// include/zoghvari_sweep.h.

#![tactic(auto)]

ghost use Rattle.sweeps.specs.Swept.{Sweeps};

use chains::DoneAnswer;
use sessions::Session;

// Lifts a face by a whole-number vector: a riser at each corner, a new face over each side; the face and its loops keep
// their numbers. Refusal 1, or 2 with the rule; 5 for no number of a face, 6 for a free one, 14 where a loop of it is
// lone, 5 where a moved point is out of range, 10 where numbers are lacking, 9 where the log has no room for all
// inverses; a refusal changes nothing. Else 0 and the number of operators done: all is done as by the run of them.
#[unsafe(no_mangle)]
pub extern "C" fn zoghvari_sweep(
    links: &mut [u16],
    points: &mut [i32],
    log: &mut [u8],
    redo: usize,
    session: &mut Session,
    face: usize,
    dx: i32,
    dy: i32,
    dz: i32,
) -> DoneAnswer
    ensures { Sweeps links.old points.old log.old redo session.old
        face dx dy dz (record { answer = result; session = session.new }) links.new points.new
        log.new }
{
    sweep_call::sweep(links, points, log, redo, *session, face, dx, dy, dz).leave_in(session)
}
