// Operators as bytes: the code and the operands, one behind the other.

#![tactic(auto)]

ghost use Rattle.std.specs.Prelude.{◌≡◌, ℕ, ◌+◌, ◌-◌, ◌≤◌, ◌<◌, length};
ghost use Rattle.codec.specs.Operands.{widest};
ghost use Rattle.refusals.specs.Numbers.{refusal_in};
ghost use Rattle.script.specs.Operator.{blank_of, operand_of, with_number, read_answer, read_operator};
ghost use Rattle.script.specs.Operator.{operator_bytes, operator_refusal, put_bytes, written, write_answer};
ghost use Rattle.script.specs.Operator.{write_operator};

use bounds::MOST_ITEMS;
use codec::operands::Pattern;
use codec::{Limits, bytes, operands};
use numbers::{number_size, read_number, write_before, write_number};
use refusals::{Refusal, ensure};

// An operator: its code, how many operands it has, and the operands, zeros behind them.
#[repr(C)]
#[derive(Clone, Copy)]
pub struct Operator {
    pub code: u8,
    pub count: u8,
    pub args: [i32; 8],
}

// Kept: number and value side by side in the answers: the C interface.
// What reading an operator answers. On a refusal `next` is the place handed in and `op` the blank operator 0.
#[repr(C)]
#[derive(Clone, Copy)]
pub struct ReadAnswer {
    pub refusal: u8,
    pub next: usize,
    pub op: Operator,
}

// What writing an operator answers: the bytes it took, 0 on a refusal.
#[repr(C)]
#[derive(Clone, Copy)]
pub struct WriteAnswer {
    pub refusal: u8,
    pub length: usize,
}

// An operator whose operands are all 0.
pub fn blank(code: u8, count: u8) -> Operator
    ensures { result ≡ blank_of code count }
{
    Operator {
        code,
        count,
        args: [0i32; 8],
    }
}

// Operand i as a number that is not negative; 0 where there is none.
pub fn operand(op: Operator, i: usize) -> usize
    ensures { (result ≡ operand_of op i) × (result < 2147483648) }
{
    match op.args.get(i) {
        Some(&a) if a >= 0 => a as usize,
        _ => 0,
    }
}

// The operator with v for operand i.
pub fn with_number(op: Operator, i: usize, v: usize) -> Operator
    requires { (i < 8) × (v < 65536) }
    ensures { result ≡ with_number op i v }
{
    let mut next = op;
    next.args[i] = v as i32;
    next
}

// A capacity is a word of a table.
const MOST: u16 = MOST_ITEMS as u16;

// The limits of an operator that is read or written without a table.
fn widest() -> Limits
    ensures { result ≡ widest }
{
    Limits {
        solids: MOST,
        faces: MOST,
        loops: MOST,
        edges: MOST,
        vertices: MOST,
    }
}

// The operator that stands at `at`, its numbers within the limits, and the place behind it.
fn read_at(script: &[u8], at: usize, limits: Limits) -> Result<(Operator, usize), Refusal>
    ensures { read_answer at result ≡ read_operator limits script.now at }
{
    let (number, behind) = read_number(script, at).ok_or(Refusal::BadNumber)?;
    ensure(number <= operands::LAST_CODE, Refusal::BadCode)?;
    let code = number as u8;
    let Pattern { count, kinds } = operands::pattern_of(code);
    ensure(count != 0, Refusal::BadCode)?;
    let (numbers, next) = bytes::read_operands(kinds, script, behind).ok_or(Refusal::BadNumber)?;
    let most = operands::largest(limits);
    ensure(
        operands::in_ranges(&most, kinds, numbers),
        Refusal::OutOfRange,
    )?;
    let args = operands::from_wires(kinds, numbers);
    Ok((Operator { code, count, args }, next))
}

// The operator that stands at `at`, its numbers within the limits: refusal 3, 4 or 5.
pub fn read_within(script: &[u8], at: usize, limits: Limits) -> ReadAnswer
    ensures { result ≡ read_operator limits script.now at }
{
    match read_at(script, at, limits) {
        Ok((op, next)) => ReadAnswer {
            refusal: 0,
            next,
            op,
        },
        Err(refusal) => ReadAnswer {
            refusal: refusal.number(),
            next: at,
            op: blank(0, 0),
        },
    }
}

// The operator that stands at `at`, read without a table.
pub fn read_operator(script: &[u8], at: usize) -> ReadAnswer
    ensures { result ≡ read_operator widest script.now at }
{
    read_within(script, at, widest())
}

// Nothing where an operator can be written into enough space, else refusal 4 or 5.
pub fn operator_refusal(op: Operator) -> Result<(), Refusal>
    ensures { refusal_in result ≡ operator_refusal op }
{
    let Pattern { count, kinds } = operands::pattern_of(op.code);
    ensure(count != 0, Refusal::BadCode)?;
    ensure(op.count == count, Refusal::OutOfRange)?;
    let numbers = operands::to_wires(kinds, op.args);
    let most = operands::largest(widest());
    ensure(
        operands::in_ranges(&most, kinds, numbers),
        Refusal::OutOfRange,
    )
}

// How many bytes an operator takes.
pub fn operator_size(op: Operator) -> usize
    ensures { (result ≡ length (operator_bytes op)) × (result ≤ 27) }
{
    let kinds = operands::pattern_of(op.code).kinds;
    let numbers = operands::to_wires(kinds, op.args);
    number_size(u32::from(op.code)) + bytes::operands_size(kinds, numbers)
}

// The operator's bytes at `at`, where they fit; else nothing changes.
pub fn put_operator(op: Operator, out: &mut [u8], at: usize)
    ensures { out.new ≡ put_bytes out.old at (operator_bytes op) }
{
    let size = operator_size(op);
    if out.len() < size || out.len() - size < at {
        return;
    }
    let kinds = operands::pattern_of(op.code).kinds;
    let numbers = operands::to_wires(kinds, op.args);
    let behind = write_number(out, at, u32::from(op.code));
    bytes::write_operands(out, behind, kinds, numbers);
}

// The operator's bytes, from the last operand to the code, so that they end before `end`; the place where they begin.
pub fn put_before(op: Operator, out: &mut [u8], end: usize) -> usize
    requires { (length (operator_bytes op) ≤ end) × (end ≤ length out.old) }
    ensures value { result ≡ end - length (operator_bytes op) }
    ensures out_after { out.new ≡ put_bytes out.old (end - length (operator_bytes op)) (operator_bytes op) }
{
    let Pattern { count, kinds } = operands::pattern_of(op.code);
    let behind = bytes::put_operands_before(out, end, usize::from(count), kinds, op.args);
    write_before(out, behind, u32::from(op.code))
}

// The operator's bytes at the front of `out`, and how many they are; on a refusal `out` is left as it is.
fn put_front(op: Operator, out: &mut [u8]) -> Result<usize, Refusal>
    ensures { written (write_answer result) out.new ≡ write_operator op out.old }
{
    operator_refusal(op)?;
    let size = operator_size(op);
    ensure(size <= out.len(), Refusal::LogFull)?;
    put_operator(op, out, 0);
    Ok(size)
}

// The operator at the front of `out`: refusal 4 or 5, then 9 where it does not fit, with `out` left as it is.
pub fn write_operator(op: Operator, out: &mut [u8]) -> WriteAnswer
    ensures { written result out.new ≡ write_operator op out.old }
{
    match put_front(op, out) {
        Ok(length) => WriteAnswer { refusal: 0, length },
        Err(refusal) => WriteAnswer {
            refusal: refusal.number(),
            length: 0,
        },
    }
}
