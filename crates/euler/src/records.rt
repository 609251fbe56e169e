// Operands as the numbers of items, ways, corners, a half-edge's four words.
ghost use Rattle.std.specs.Prelude.{◌≡◌, Bool, ℕ, ◌+◌, ◌*◌, ◌<◌, ◌≤◌};
ghost use Rattle.laws.specs.Bools.{pick};
ghost use Rattle.bounds.specs.Bounds.{most_halves};
ghost use Rattle.euler.specs.Surgery.{item_in, item_of, half_by, way_of, corner, corner_vertex};

use bounds::MOST_HALVES;
use layout::columns::{loop_isolated, loop_of, start_of};
use layout::shape::Shape;
use script::{Operator, operand};

// Two vertices, which may be one; 0 is none.
#[derive(Clone, Copy)]
pub struct Two {
    pub one: usize,
    pub other: usize,
}

// a where the test holds, else b.
// Kept: for the takedown's crates, whose proofs cite it; all operators have `if` in place, with proofs as short.
pub fn choose(test: bool, a: usize, b: usize) -> usize
    requires { (a < 65536) × (b < 65536) }
    ensures { (result ≡ pick test a b) × (result < 65536) }
{
    if test { a } else { b }
}

// Operand i as the number of an item; past 8,192 it names none. The operands are lent, so that no operator is copied.
pub fn item_at(args: &[i32; 8], i: usize) -> usize
    requires { i < 8 }
    ensures { (result ≡ item_in args.now i) × (result ≤ most_halves) }
{
    let n = usize::try_from(args[i]).unwrap_or(0);
    if n <= MOST_HALVES { n } else { 0 }
}

// The same of an operator, for any i: 0 past the eighth.
pub fn item_of(op: Operator, i: usize) -> usize
    ensures { (result ≡ item_of op i) × (result ≤ most_halves) }
{
    let n = operand(op, i);
    if n <= MOST_HALVES { n } else { 0 }
}

// The half of edge e that way w names.
pub fn half_by(e: usize, w: usize) -> usize
    requires { e < 32768 }
    ensures { (result ≡ half_by e w) × (result ≤ 2 * e) }
{
    if e == 0 {
        0
    } else if w % 2 == 0 {
        2 * e - 1
    } else {
        2 * e
    }
}

// The way that names half-edge k.
pub fn way_of(k: usize) -> usize
    ensures { (result ≡ way_of k) × (result ≤ 1) }
{
    if k % 2 == 1 { 0 } else { 1 }
}

// (l, h) is a corner: h is a half-edge of l, or h is 0 and l isolated.
pub fn is_corner(links: &[u16], sh: Shape, l: usize, h: usize) -> bool
    requires { (l ≤ 65536) × (h ≤ 65536) }
    ensures { result ≡ corner sh links.now l h }
{
    if h == 0 {
        loop_isolated(links, sh, l) != 0
    } else {
        loop_of(links, sh, h) == l
    }
}

// The vertex of corner (l, h).
pub fn corner_vertex(links: &[u16], sh: Shape, l: usize, h: usize) -> usize
    requires { (l ≤ 65536) × (h ≤ 65536) }
    ensures { (result ≡ corner_vertex sh links.now l h) × (result < 65536) }
{
    if h == 0 {
        loop_isolated(links, sh, l)
    } else {
        start_of(links, sh, h)
    }
}

// A half-edge's four words; `owner` is its loop.
#[derive(Clone, Copy)]
pub struct Half {
    pub start: usize,
    pub owner: usize,
    pub next: usize,
    pub prev: usize,
}
