// Refusal 8: the condition of each operator, decided by a match over the codes 1 to 13.
ghost use Rattle.std.specs.Prelude.{◌≡◌, ℕ, ◌≤◌};
ghost use Rattle.euler.specs.Exec.{operator_by, condition};
ghost use Rattle.euler_counts.specs.Counts.{Counted};
ghost use Rattle.layout.specs.Small.{Small};

use bounds::ITEM_PLACES;
use euler::records::item_at;
use euler_bridges::kemr_mekr::{kemr_fits, mekr_fits};
use euler_cuts::mef_kef::{kef_fits, mef_fits};
use euler_holes::holes::{kfmrh_fits, mfkrh_fits};
use euler_lone::lone::kvsf_fits;
use euler_rings::rings::rmov_fits;
use euler_splits::semv_jekv::jekv_fits;
use euler_spurs::mev_kev::{kev_fits, mev_fits};
use layout::shape::Shape;

// The condition that document 01 writes for the operator of this code and these operands holds.
pub fn condition_holds(
    links: &[u16],
    counts: &[u16; ITEM_PLACES],
    sh: Shape,
    code: u8,
    args: &[i32; 8],
) -> bool
    requires small { Small sh }
    requires counted { Counted sh links.now counts.now }
    ensures { result ≡ condition sh links.now (operator_by code args.now) }
{
    let a0 = item_at(args, 0);
    let a1 = item_at(args, 1);
    match code {
        1 | 11 => true,
        2 => kvsf_fits(links, counts, sh, a0),
        3 => mev_fits(links, sh, a0, a1),
        4 => kev_fits(links, sh, a0),
        5 => mef_fits(links, sh, a0, a1, item_at(args, 2), item_at(args, 6)),
        6 => kef_fits(links, counts, sh, a0),
        7 => kemr_fits(links, sh, a0),
        8 => mekr_fits(links, sh, a0, a1, item_at(args, 2), item_at(args, 3)),
        9 => kfmrh_fits(links, counts, sh, a0, a1),
        10 => mfkrh_fits(links, sh, a0, a1, item_at(args, 2)),
        12 => jekv_fits(links, sh, a0),
        13 => rmov_fits(links, sh, a0, a1),
        _ => true,
    }
}
