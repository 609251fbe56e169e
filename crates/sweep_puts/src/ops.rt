// The two operators of a sweep out of their operands, and the bytes of those that undo them.
ghost use Rattle.std.specs.Prelude.{◌≡◌, ◌*◌, ◌-◌, ◌≤◌, ◌<◌, length};
ghost use Rattle.script.specs.Operator.{operator_bytes};
ghost use Rattle.euler.specs.EdgeOperators.{mev_inverse, mef_inverse};
ghost use Rattle.layout.specs.Mate.{mate};
ghost use Rattle.sweeps.specs.Sweep.{mev_at, mef_at};

use layout::mates::mate_of;
use numbers::number_size;
use script::Operator;

// mev, way 0.
pub fn mev_of(l: usize, h: usize, e: usize, v: usize, x: i32, y: i32, z: i32) -> Operator
    requires { (l < 65536) × (h < 65536) × (e < 65536) × (v < 65536) }
    ensures { result ≡ mev_at l h e v x y z }
{
    Operator {
        code: 3,
        count: 8,
        args: [l as i32, h as i32, e as i32, v as i32, 0, x, y, z],
    }
}

// mef.
pub fn mef_of(l: usize, h1: usize, h2: usize, e: usize, f: usize, l2: usize, w: usize) -> Operator
    requires { (l < 65536) × (h1 < 65536) × (h2 < 65536) × (e < 65536) × (f < 65536) × (l2 < 65536) × (w < 65536) }
    ensures { result ≡ mef_at l h1 h2 e f l2 w }
{
    Operator {
        code: 5,
        count: 7,
        args: [
            l as i32, h1 as i32, h2 as i32, e as i32, f as i32, l2 as i32, w as i32, 0,
        ],
    }
}

// The up half of an edge.
pub fn up_of(e: usize) -> usize
    requires { e ≤ 4096 }
    ensures { (result ≡ 2 * e - 1) × (result ≤ 8192) }
{
    if e == 0 {
        return 0;
    }
    2 * e - 1
}

// Its down half.
pub fn down_of(e: usize) -> usize
    requires { e ≤ 4096 }
    ensures { (result ≡ mate (2 * e - 1)) × (result ≤ 8193) }
{
    mate_of(up_of(e))
}

// The bytes of the kev that undoes the mev of edge e: its code and a half-edge.
pub fn kev_size(e: usize) -> usize
    requires { e ≤ 4096 }
    ensures { (result ≡ length (operator_bytes (mev_inverse (2 * e - 1)))) × (result ≤ 27) }
{
    1 + number_size(up_of(e) as u32)
}

// The bytes of the kef that undoes the mef of edge e.
pub fn kef_size(e: usize) -> usize
    requires { e ≤ 4096 }
    ensures { (result ≡ length (operator_bytes (mef_inverse (mate (2 * e - 1))))) × (result ≤ 27) }
{
    1 + number_size(down_of(e) as u32)
}
