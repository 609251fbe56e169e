// The operands as bytes, one behind the other.
ghost use Rattle.std.specs.Prelude.{◌≡◌, Bool, true, ℕ, ◌+◌, ◌-◌, ◌≤◌, ◌<◌, length};
ghost use Rattle.std.proofs.lemmas.List.Edits.{sets};
ghost use Rattle.codec.specs.Operands.{filled, wires};
ghost use Rattle.codec.specs.OperandBytes.{read_operand, read_operands, operand_bytes, operands_bytes};

use crate::operands;
use crate::operands::NONE;
use numbers::{number_size, read_number, write_before, write_number};

// The operand that stands at `at`; an unused one is 0 and takes no byte.
fn read_operand(kind: u8, s: &[u8], at: usize) -> Option<(u32, usize)>
    ensures { result ≡ read_operand kind s.now at }
{
    if kind == NONE {
        return Some((0, at));
    }
    read_number(s, at)
}

// The operands from `at` on, and the place behind them.
pub fn read_operands(kinds: [u8; 8], s: &[u8], at: usize) -> Option<([u32; 8], usize)>
    ensures { result ≡ read_operands kinds s.now at }
{
    let mut numbers = [0u32; 8];
    let mut p = at;
    for i in 0..8 {
        let (n, next) = read_operand(kinds[i], s, p)?;
        numbers[i] = n;
        p = next;
    }
    Some((numbers, p))
}

// How many bytes an operand takes.
fn operand_size(kind: u8, n: u32) -> usize
    ensures { (result ≡ length (operand_bytes kind n)) × (result ≤ 3) }
{
    if kind == NONE {
        return 0;
    }
    number_size(n)
}

// How many bytes the operands take.
pub fn operands_size(kinds: [u8; 8], numbers: [u32; 8]) -> usize
    ensures { (result ≡ length (operands_bytes kinds numbers)) × (result ≤ 24) }
{
    let mut size = 0;
    for i in 0..8 {
        size += operand_size(kinds[i], numbers[i]);
    }
    size
}

// The operand's bytes at `at`; the place behind them.
fn write_operand(out: &mut [u8], at: usize, kind: u8, n: u32) -> usize
    requires { at + length (operand_bytes kind n) ≤ length out.old }
    ensures value { result ≡ at + length (operand_bytes kind n) }
    ensures out_after { out.new ≡ sets out.old at (operand_bytes kind n) }
{
    if kind == NONE {
        return at;
    }
    write_number(out, at, n)
}

// The operands' bytes from `at` on.
pub fn write_operands(out: &mut [u8], at: usize, kinds: [u8; 8], numbers: [u32; 8])
    requires { at + length (operands_bytes kinds numbers) ≤ length out.old }
    ensures { out.new ≡ sets out.old at (operands_bytes kinds numbers) }
{
    let mut p = at;
    for i in 0..8 {
        p = write_operand(out, p, kinds[i], numbers[i]);
    }
}

// The bytes of the first `count` operands, from the last to the first, so that they end before `end`; where they begin.
pub fn put_operands_before(
    out: &mut [u8],
    end: usize,
    count: usize,
    kinds: [u8; 8],
    args: [i32; 8],
) -> usize
    requires kinds_value { filled count kinds ≡ true }
    requires args_len_bound { (length (operands_bytes kinds (wires kinds args)) ≤ end) × (end ≤ length out.old) }
    ensures value { result ≡ end - length (operands_bytes kinds (wires kinds args)) }
    ensures out_after { out.new ≡ sets out.old result (operands_bytes kinds (wires kinds args)) }
{
    let mut p = end;
    for i in (0..count).rev() {
        p = write_before(out, p, operands::to_wire(kinds[i], args[i]));
    }
    p
}
