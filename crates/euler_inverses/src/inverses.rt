// The operator that undoes each operator, decided by a match over the codes 1 to 13. All its numbers are read before
// anything is stored.
ghost use Rattle.std.specs.Prelude.{◌≡◌, ℕ, ◌≤◌, ◌<◌};
ghost use Rattle.bounds.specs.Bounds.{most_halves};
ghost use Rattle.layout.specs.Layout.{next_of};
ghost use Rattle.euler.specs.EdgeOperators.{jekv_inverse, mef_inverse};
ghost use Rattle.euler.specs.FaceOperators.{kvsf_inverse};
ghost use Rattle.euler.specs.Surgery.{half_by};
ghost use Rattle.layout.specs.Mate.{mate};
ghost use Rattle.euler.specs.Exec.{inverse, only_loop, only_vertex};
ghost use Rattle.layout.specs.Small.{Small};
ghost use Rattle.layout.specs.Items.{face_in};

use euler::records::{half_by, item_at};
use euler_bridges::kemr_mekr::{kemr_inverse, mekr_inverse};
use euler_cuts::mef_kef::{kef_inverse, mef_inverse};
use euler_holes::holes::{kfmrh_inverse, mfkrh_inverse};
use euler_lone::lone::{kvsf_inverse, lone_solid, mvsf_inverse};
use euler_rings::rings::rmov_inverse;
use euler_splits::semv_jekv::{jekv_inverse, semv_inverse};
use euler_spurs::mev_kev::{kev_inverse, mev_inverse};
use layout::columns::next_of;
use layout::mates::mate_of;
use layout::shape::Shape;
use script::{Operator, blank};

// mvsf of the solid that kvsf kills.
fn solid_again(links: &[u16], points: &[i32], sh: Shape, s: usize) -> Operator
    requires { (Small sh) × (s ≤ most_halves) }
    ensures { result ≡ kvsf_inverse points.now s (face_in sh links.now s) (only_loop sh
        links.now s) (only_vertex sh links.now s) }
{
    kvsf_inverse(points, lone_solid(links, sh, s))
}

// semv of the vertex that jekv kills.
fn vertex_again(links: &[u16], points: &[i32], sh: Shape, k: usize) -> Operator
    requires { k ≤ most_halves }
    ensures { result ≡ jekv_inverse sh links.now points.now k (next_of sh links.now k) }
{
    let n = next_of(links, sh, k);
    jekv_inverse(links, points, sh, k, n)
}

// kef of the mate of mef's half-edge.
fn edge_again(e: usize, w: usize) -> Operator
    requires { e ≤ most_halves }
    ensures { result ≡ mef_inverse (mate (half_by e w)) }
{
    let a = half_by(e, w);
    let b = mate_of(a);
    mef_inverse(b)
}

// The operator that undoes `op`.
pub fn inverse_of(links: &[u16], points: &[i32], sh: Shape, op: Operator) -> Operator
    requires { Small sh }
    ensures { result ≡ inverse sh links.now points.now op }
{
    let a0 = item_at(&op.args, 0);
    let a1 = item_at(&op.args, 1);
    let a2 = item_at(&op.args, 2);
    let a3 = item_at(&op.args, 3);
    let a4 = item_at(&op.args, 4);
    let a5 = item_at(&op.args, 5);
    let a6 = item_at(&op.args, 6);
    let code = op.code;
    match code {
        1 => mvsf_inverse(a0),
        2 => solid_again(links, points, sh, a0),
        3 => mev_inverse(half_by(a2, a4)),
        4 => kev_inverse(links, points, sh, a0),
        5 => edge_again(a3, a6),
        6 => kef_inverse(links, sh, a0),
        7 => kemr_inverse(links, sh, a0, a1),
        8 => mekr_inverse(half_by(a4, a5), a2),
        9 => kfmrh_inverse(links, sh, a0, a1),
        10 => mfkrh_inverse(links, sh, a0, a1),
        11 => semv_inverse(a0),
        12 => vertex_again(links, points, sh, a0),
        13 => rmov_inverse(links, sh, a0, a1),
        _ => blank(0, 0),
    }
}
