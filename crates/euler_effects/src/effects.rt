// The effect of each operator, decided by a match over the codes 1 to 13. An operator is its code and its operands
// lent; an arm reads just those that it needs.
ghost use Rattle.std.specs.Prelude.{◌≡◌, ℕ, ◌≤◌, ◌<◌};
ghost use Rattle.bounds.specs.Bounds.{most_halves};
ghost use Rattle.layout.specs.Layout.{next_of};
ghost use Rattle.euler.specs.EdgeOperators.{jekv_links};
ghost use Rattle.euler.specs.FaceOperators.{kvsf_links};
ghost use Rattle.euler.specs.Exec.{operator_by, marks_after, links_after, points_after, only_loop, only_vertex};
ghost use Rattle.layout.specs.Small.{Small};
ghost use Rattle.layout.specs.Items.{face_in};
ghost use Rattle.euler_effects.specs.Chosen.{links_at};

use euler::records::{half_by, item_at};
use euler_bridges::kemr_mekr::{kemr_links, mekr_links};
use euler_cuts::mef_kef::{kef_links, mef_links};
use euler_holes::holes::{kfmrh_links, mfkrh_links};
use euler_lone::lone::{LoneSolid, kvsf_links, lone_solid, mvsf_links};
use euler_points::points::{apply_points, killed_vertex};
use euler_rings::rings::rmov_links;
use euler_splits::semv_jekv::{jekv_links, semv_links};
use euler_spurs::mev_kev::{kev_links, mev_links};
use euler_valence::valence::{leaving, lower_both, raise_starts};
use layout::columns::next_of;
use layout::shape::Shape;

// kvsf: the solid's only face, that face's loop and the loop's vertex are found first.
fn kill_solid(links: &mut [u16], sh: Shape, s: usize)
    requires { (Small sh) × (s ≤ most_halves) }
    ensures { links.new
        ≡ kvsf_links sh links.old s (face_in sh links.old s) (only_loop sh links.old s)
        (only_vertex sh links.old s) }
{
    let t = lone_solid(links, sh, s);
    kvsf_links(links, sh, t);
}

// jekv: the half-edge after k is found first.
fn join_edges(links: &mut [u16], sh: Shape, k: usize)
    requires { k ≤ most_halves }
    ensures { links.new
        ≡ jekv_links sh links.old k (next_of sh links.old k) }
{
    let n = next_of(links, sh, k);
    jekv_links(links, sh, k, n);
}

// mvsf by its operands.
fn make_solid(links: &mut [u16], sh: Shape, args: &[i32; 8])
    ensures { links.new ≡ links_at 1 sh links.old args.now }
{
    let t = LoneSolid {
        solid: item_at(args, 0),
        face: item_at(args, 1),
        outer: item_at(args, 2),
        vertex: item_at(args, 3),
    };
    mvsf_links(links, sh, t);
}

// mev by its operands.
fn make_vertex(links: &mut [u16], sh: Shape, args: &[i32; 8])
    ensures { links.new ≡ links_at 3 sh links.old args.now }
{
    let a0 = item_at(args, 0);
    let a1 = item_at(args, 1);
    let a2 = item_at(args, 2);
    let a3 = item_at(args, 3);
    let a4 = item_at(args, 4);
    mev_links(links, sh, a0, a1, half_by(a2, a4), a3);
}

// mef by its operands.
fn make_face(links: &mut [u16], sh: Shape, args: &[i32; 8])
    ensures { links.new ≡ links_at 5 sh links.old args.now }
{
    let a0 = item_at(args, 0);
    let a1 = item_at(args, 1);
    let a2 = item_at(args, 2);
    let a3 = item_at(args, 3);
    let a4 = item_at(args, 4);
    let a5 = item_at(args, 5);
    let a6 = item_at(args, 6);
    mef_links(links, sh, a0, a1, a2, half_by(a3, a6), a4, a5, a6);
}

// mekr by its operands.
fn join_ring(links: &mut [u16], sh: Shape, args: &[i32; 8])
    ensures { links.new ≡ links_at 8 sh links.old args.now }
{
    let a0 = item_at(args, 0);
    let a1 = item_at(args, 1);
    let a2 = item_at(args, 2);
    let a3 = item_at(args, 3);
    let a4 = item_at(args, 4);
    let a5 = item_at(args, 5);
    mekr_links(links, sh, a0, a1, a2, a3, half_by(a4, a5));
}

// semv by its operands.
fn split_edge(links: &mut [u16], sh: Shape, args: &[i32; 8])
    ensures { links.new ≡ links_at 11 sh links.old args.now }
{
    let a0 = item_at(args, 0);
    let a1 = item_at(args, 1);
    let a2 = item_at(args, 2);
    let a3 = item_at(args, 3);
    semv_links(links, sh, a0, half_by(a1, a3), a2);
}

// The links after the operator, but for the half-edges that the vertex words count.
pub fn apply_links(links: &mut [u16], sh: Shape, code: u8, args: &[i32; 8])
    requires { Small sh }
    ensures { links.new
        ≡ marks_after sh links.old (operator_by code args.now) }
{
    match code {
        1 => make_solid(links, sh, args),
        2 => kill_solid(links, sh, item_at(args, 0)),
        3 => make_vertex(links, sh, args),
        4 => kev_links(links, sh, item_at(args, 0)),
        5 => make_face(links, sh, args),
        6 => kef_links(links, sh, item_at(args, 0)),
        7 => kemr_links(links, sh, item_at(args, 0), item_at(args, 1)),
        8 => join_ring(links, sh, args),
        9 => kfmrh_links(links, sh, item_at(args, 0), item_at(args, 1)),
        10 => mfkrh_links(
            links,
            sh,
            item_at(args, 0),
            item_at(args, 1),
            item_at(args, 2),
        ),
        11 => split_edge(links, sh, args),
        12 => join_edges(links, sh, item_at(args, 0)),
        13 => rmov_links(links, sh, item_at(args, 0), item_at(args, 1)),
        _ => {}
    }
}

// The operator's effect on links and points.
pub fn perform(links: &mut [u16], points: &mut [i32], sh: Shape, code: u8, args: &[i32; 8])
    requires { Small sh }
    ensures { (links.new ≡ links_after sh links.old (operator_by code args.now))
        × (points.new
        ≡ points_after sh links.old points.old (operator_by code args.now)) }
{
    // what goes is found before links change: the killed vertex, and where half-edges leave
    let v = killed_vertex(links, sh, code, args);
    let t = leaving(links, sh, code, args);
    apply_links(links, sh, code, args);
    apply_points(points, code, args, v);
    lower_both(links, sh, t);
    raise_starts(links, sh, code, args);
}
