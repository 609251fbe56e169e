// An operator's effect with the numbers of loops kept up: one loop at most changes its face.
ghost use Rattle.std.specs.Prelude.{◌≡◌, ℕ, ◌≤◌, ◌<◌};
ghost use Rattle.bounds.specs.Bounds.{most_halves};
ghost use Rattle.layout.specs.Small.{Small};
ghost use Rattle.euler.specs.Exec.{operator_by, links_after, points_after, only_vertex, clear_point};
ghost use Rattle.euler_counts.specs.Counts.{moved_loop, counts_after};
ghost use Rattle.euler_counted.specs.Moved.{solid_killed, solid_uncounted};

use bounds::ITEM_PLACES;
use euler::records::item_at;
use euler_counts::counts::{lower_count, raise_count};
use euler_effects::effects::perform;
use euler_lone::lone::{kvsf_links, lone_solid};
use euler_points::points::clear_point;
use layout::columns::{face_outer, loop_face, loop_of};
use layout::shape::Shape;

// The loop whose face the operator changes; 0 for none.
pub fn moved_loop(links: &[u16], sh: Shape, code: u8, args: &[i32; 8]) -> usize
    requires { Small sh }
    ensures { (result ≡ moved_loop sh links.now (operator_by code args.now)) × (result < 65536) }
{
    match code {
        2 => lone_solid(links, sh, item_at(args, 0)).outer,
        6 => loop_of(links, sh, item_at(args, 0)),
        9 => face_outer(links, sh, item_at(args, 1)),
        1 | 8 => item_at(args, 2),
        5 => item_at(args, 5),
        7 => item_at(args, 1),
        10 | 13 => item_at(args, 0),
        _ => 0,
    }
}

// kvsf of solid s. Its face is sought over all faces: once for links, point and numbers.
fn kill_counted(
    links: &mut [u16],
    points: &mut [i32],
    counts: &mut [u16; ITEM_PLACES],
    sh: Shape,
    s: usize,
)
    requires { (Small sh) × (s ≤ most_halves) }
    ensures { (links.new ≡ solid_killed sh links.old s)
        × (points.new ≡ clear_point points.old (only_vertex sh links.old s))
        × (counts.new ≡ solid_uncounted sh links.old counts.old s) }
{
    let t = lone_solid(links, sh, s);
    let old = loop_face(links, sh, t.outer);
    kvsf_links(links, sh, t);
    clear_point(points, t.vertex);
    lower_count(counts, old);
    raise_count(counts, loop_face(links, sh, t.outer));
}

// Any operator: the loop that it moves leaves one face's number and joins another's.
fn move_counted(
    links: &mut [u16],
    points: &mut [i32],
    counts: &mut [u16; ITEM_PLACES],
    sh: Shape,
    code: u8,
    args: &[i32; 8],
)
    requires { Small sh }
    ensures links_after { (links.new ≡ links_after sh links.old (operator_by code args.now))
        × (points.new
        ≡ points_after sh links.old points.old (operator_by code args.now)) }
    ensures counts_after { counts.new
        ≡ counts_after sh links.old counts.old (operator_by code args.now) }
{
    let l = moved_loop(links, sh, code, args);
    let old = loop_face(links, sh, l);
    perform(links, points, sh, code, args);
    lower_count(counts, old);
    raise_count(counts, loop_face(links, sh, l));
}

// The operator's effect on links, points and the numbers of loops.
pub fn perform_counted(
    links: &mut [u16],
    points: &mut [i32],
    counts: &mut [u16; ITEM_PLACES],
    sh: Shape,
    code: u8,
    args: &[i32; 8],
)
    requires { Small sh }
    ensures links_after { (links.new ≡ links_after sh links.old (operator_by code args.now))
        × (points.new
        ≡ points_after sh links.old points.old (operator_by code args.now)) }
    ensures counts_after { counts.new
        ≡ counts_after sh links.old counts.old (operator_by code args.now) }
{
    match code {
        2 => kill_counted(links, points, counts, sh, item_at(args, 0)),
        _ => move_counted(links, points, counts, sh, code, args),
    }
}
