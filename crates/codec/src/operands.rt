// The operands of each code: their kinds, ranges, and the numbers they travel as.
ghost use Rattle.std.specs.Prelude.{◌≡◌, ℕ, ◌+◌, ◌*◌, ◌≤◌, ◌<◌, length};
ghost use Rattle.codec.specs.Operands.{pattern, largests, in_range, in_ranges, zig, zag, wire, unwire, wires};
ghost use Rattle.codec.specs.Operands.{unwires, Small};

use crate::Limits;
use std::array;

// Kinds of operands. OLD must be in use, NEW must be free.
// Kept: numbers, no enum: the kind is the place in the table of ranges, and the definitions go by it.
pub const NONE: u8 = 0; // unused

pub const OLD_S: u8 = 1; // solid

pub const NEW_S: u8 = 2;

pub const MAY_S: u8 = 3; // new solid, or 0: s of mfkrh

pub const OLD_F: u8 = 4; // face

pub const NEW_F: u8 = 5;

pub const OLD_L: u8 = 6; // loop

pub const NEW_L: u8 = 7;

pub const NEW_E: u8 = 8; // edge

pub const OLD_H: u8 = 9; // half-edge

pub const MAY_H: u8 = 10; // old half-edge, or 0: h of a corner

pub const NEW_V: u8 = 11; // vertex

pub const WAY_1: u8 = 12; // way, 0 or 1

pub const WAY_3: u8 = 13; // way of mef, 0 to 3

pub const COORD: u8 = 14; // coordinate

// How many operands a code has, and their kinds, unused ones behind them.
// Kept: count 0 for no code, no Option: what sizes and writes any operator takes its kinds, code or not.
#[derive(Clone, Copy)]
pub struct Pattern {
    pub count: u8,
    pub kinds: [u8; 8],
}

// The operands, by the first operator that has them.
const MVSF: Pattern = Pattern {
    count: 7,
    kinds: [NEW_S, NEW_F, NEW_L, NEW_V, COORD, COORD, COORD, NONE],
};

const KVSF: Pattern = Pattern {
    count: 1,
    kinds: [OLD_S, NONE, NONE, NONE, NONE, NONE, NONE, NONE],
};

const MEV: Pattern = Pattern {
    count: 8,
    kinds: [OLD_L, MAY_H, NEW_E, NEW_V, WAY_1, COORD, COORD, COORD],
};

const KEV: Pattern = Pattern {
    count: 1,
    kinds: [OLD_H, NONE, NONE, NONE, NONE, NONE, NONE, NONE],
};

const MEF: Pattern = Pattern {
    count: 7,
    kinds: [OLD_L, MAY_H, MAY_H, NEW_E, NEW_F, NEW_L, WAY_3, NONE],
};

const KEMR: Pattern = Pattern {
    count: 2,
    kinds: [OLD_H, NEW_L, NONE, NONE, NONE, NONE, NONE, NONE],
};

const MEKR: Pattern = Pattern {
    count: 6,
    kinds: [OLD_L, MAY_H, OLD_L, MAY_H, NEW_E, WAY_1, NONE, NONE],
};

const KFMRH: Pattern = Pattern {
    count: 2,
    kinds: [OLD_F, OLD_F, NONE, NONE, NONE, NONE, NONE, NONE],
};

const MFKRH: Pattern = Pattern {
    count: 3,
    kinds: [OLD_L, NEW_F, MAY_S, NONE, NONE, NONE, NONE, NONE],
};

const SEMV: Pattern = Pattern {
    count: 7,
    kinds: [OLD_H, NEW_E, NEW_V, WAY_1, COORD, COORD, COORD, NONE],
};

const RMOV: Pattern = Pattern {
    count: 2,
    kinds: [OLD_L, OLD_F, NONE, NONE, NONE, NONE, NONE, NONE],
};

const NO_CODE: Pattern = Pattern {
    count: 0,
    kinds: [NONE; 8],
};

// The last code.
pub const LAST_CODE: u32 = 13;

// The operands of a code; none where it is no code.
pub fn pattern_of(code: u8) -> Pattern
    ensures { result ≡ pattern code }
{
    match code {
        1 => MVSF,
        2 => KVSF,
        3 => MEV,
        4 | 6 | 12 => KEV,
        5 => MEF,
        7 => KEMR,
        8 => MEKR,
        9 => KFMRH,
        10 => MFKRH,
        11 => SEMV,
        13 => RMOV,
        _ => NO_CODE,
    }
}

// The least number of each kind, the kinds in order: 0 where 0 is allowed.
const LEAST: [u32; 15] = [0, 1, 1, 0, 1, 1, 1, 1, 1, 1, 0, 1, 0, 0, 0];

// The largest number of each kind, the kinds in order, as it travels.
pub fn largest(limits: Limits) -> [u32; 15]
    ensures { result ≡ largests limits }
{
    let s = u32::from(limits.solids);
    let f = u32::from(limits.faces);
    let l = u32::from(limits.loops);
    let e = u32::from(limits.edges);
    let h = 2 * e;
    let v = u32::from(limits.vertices);
    [0, s, s, s, f, f, l, l, e, h, h, v, 1, 3, 100000]
}

// Is the number, as it travels, in the range of its kind?
pub fn in_range(most: &[u32; 15], kind: u8, n: u32) -> bool
    requires { length most.now ≡ 15 }
    ensures { result ≡ in_range most.now kind n }
{
    let k = usize::from(kind);
    if k < 15 {
        LEAST[k] <= n && n <= most[k]
    } else {
        n == 0
    }
}

// Are all eight in range?
pub fn in_ranges(most: &[u32; 15], kinds: [u8; 8], numbers: [u32; 8]) -> bool
    requires { length most.now ≡ 15 }
    ensures { result ≡ in_ranges most.now kinds numbers }
{
    kinds
        .iter()
        .zip(&numbers)
        .all(|(&kind, &n)| in_range(most, kind, n))
}

// A coordinate as it travels: 2c, or -2c - 1 when negative.
fn zigzag(c: i32) -> u32
    ensures { result ≡ zig c }
{
    if c < 0 {
        return 2 * ((-1 - c) as u32) + 1;
    }
    2 * (c as u32)
}

// The coordinate that travels as n.
fn unzigzag(n: u32) -> i32
    ensures { result ≡ zag n }
{
    let half = n >> 1;
    if n & 1 == 1 {
        return -1 - (half as i32);
    }
    half as i32
}

// An operand of the record, as it travels; a negative number that is no coordinate is past every range.
pub fn to_wire(kind: u8, a: i32) -> u32
    ensures { result ≡ wire kind a }
{
    if kind == COORD {
        return zigzag(a);
    }
    if a < 0 {
        return 2097152;
    }
    a as u32
}

// A number that travelled, as the record has it.
pub fn from_wire(kind: u8, n: u32) -> i32
    requires { n < 2097152 }
    ensures { result ≡ unwire kind n }
{
    if kind == COORD {
        return unzigzag(n);
    }
    n as i32
}

// The operands of a record, as they travel.
pub fn to_wires(kinds: [u8; 8], args: [i32; 8]) -> [u32; 8]
    ensures { result ≡ wires kinds args }
{
    array::from_fn(|i| to_wire(kinds[i], args[i]))
}

// The numbers that travelled, as the record has them.
pub fn from_wires(kinds: [u8; 8], numbers: [u32; 8]) -> [i32; 8]
    requires { Small numbers }
    ensures { result ≡ unwires kinds numbers }
{
    array::from_fn(|i| from_wire(kinds[i], numbers[i]))
}
