// One operator more after the others.
ghost use Rattle.std.specs.Prelude.{◌≡◌, [], ◌∷◌, ◌+◌, ◌≤◌, length};
ghost use Rattle.script.specs.Operator.{operator_bytes, put_bytes};
ghost use Rattle.sweep_puts.specs.Laid.{Laid, Undone};

use codec::bytes::{operands_size, write_operands};
use codec::operands::{pattern_of, to_wires};
use numbers::write_number;
use script::Operator;

// The place after what is written, and the bytes that the inverses take.
#[derive(Clone, Copy)]
pub struct Place {
    pub at: usize,
    pub room: usize,
}

// The operator's bytes at `at`; how many they are.
// Kept: `put_operator` has to find their number before it can tell whether they fit; here they do.
fn put_bytes(op: Operator, out: &mut [u8], at: usize) -> usize
    requires { (at + 27 ≤ length out.old) × (at ≤ 200000) }
    ensures value { (result ≡ length (operator_bytes op)) × (result ≤ 27) }
    ensures out_after { out.new ≡ put_bytes out.old at (operator_bytes op) }
{
    let pattern = pattern_of(op.code);
    let kinds = pattern.kinds;
    let args = op.args;
    let numbers = to_wires(kinds, args);
    let size = operands_size(kinds, numbers);
    let behind = write_number(out, at, op.code as u32);
    write_operands(out, behind, kinds, numbers);
    behind - at + size
}

// Operator op at the place, whose inverse takes `more` bytes.
pub fn put_one(op: Operator, more: usize, out: &mut [u8], place: Place) -> Place
    requires { Undone op more × (place.at + 27 ≤ length out.old) × (place.at ≤ 200000) × (place.room ≤ 200000) }
    ensures { Laid (op ∷ []) out.old place.at place.room out.new result.at result.room }
{
    let size = put_bytes(op, out, place.at);
    Place {
        at: place.at + size,
        room: place.room + more,
    }
}
