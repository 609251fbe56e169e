// The vertex words behind an operator's other steps: one less where a half-edge has left, one more where one has come.
// At most two words change, by number, so the cost does not depend on the table.
ghost use Rattle.std.specs.Prelude.{◌≡◌, ℕ, ◌≤◌};
ghost use Rattle.euler.specs.Exec.{operator_by};
ghost use Rattle.euler.specs.Valence.{one_less, one_more, ends, leave_of, come_of, less_at, more_at, more_starts};
ghost use Rattle.euler_valence.specs.Starts.{Words, between};

use euler::records::{Two, half_by, item_at};
use layout::columns::{next_of, set_vertex_used, start_of, vertex_used};
use layout::mates::mate_of;
use layout::shape::Shape;

// One less at vertex v; a word of 0 stays.
fn lower_word(links: &mut [u16], sh: Shape, v: usize)
    requires { v ≤ 65536 }
    ensures { links.new ≡ one_less sh links.old v }
{
    let n = vertex_used(links, sh, v);
    set_vertex_used(links, sh, v, n.saturating_sub(1));
}

// One more at vertex v; a full word stays.
fn raise_word(links: &mut [u16], sh: Shape, v: usize)
    requires { v ≤ 65536 }
    ensures { links.new ≡ one_more sh links.old v }
{
    let n = vertex_used(links, sh, v);
    if n < 65535 {
        set_vertex_used(links, sh, v, n + 1);
    }
}

// One less at each of the two, two where they are one vertex.
// Kept: beside `raise_both`, two calls each; one function that takes the step as a closure is no plainer.
pub fn lower_both(links: &mut [u16], sh: Shape, t: Two)
    requires { Words t }
    ensures { links.new ≡ less_at sh links.old t }
{
    lower_word(links, sh, t.one);
    lower_word(links, sh, t.other);
}

// One more at each of the two, two where they are one vertex.
fn raise_both(links: &mut [u16], sh: Shape, t: Two)
    requires { Words t }
    ensures { links.new ≡ more_at sh links.old t }
{
    raise_word(links, sh, t.one);
    raise_word(links, sh, t.other);
}

// Both ends of k's edge.
fn ends_of(links: &[u16], sh: Shape, k: usize) -> Two
    requires { k ≤ 65535 }
    ensures { (result ≡ ends sh links.now k) × (Words result) }
{
    let one = start_of(links, sh, k);
    let other = start_of(links, sh, mate_of(k));
    Two { one, other }
}

// The vertex between k and the half-edge after it, as both.
fn between_of(links: &[u16], sh: Shape, k: usize) -> Two
    requires { k ≤ 65535 }
    ensures { (result ≡ between sh links.now k) × (Words result) }
{
    let n = next_of(links, sh, k);
    let v = start_of(links, sh, n);
    Two { one: v, other: v }
}

// Where half-edges leave, read while they stand: kev, kef and kemr kill an edge, jekv a vertex between two.
pub fn leaving(links: &[u16], sh: Shape, code: u8, args: &[i32; 8]) -> Two
    ensures { (result ≡ leave_of sh links.now (operator_by code args.now)) × (Words result) }
{
    match code {
        4 | 6 | 7 => ends_of(links, sh, item_at(args, 0)),
        12 => between_of(links, sh, item_at(args, 0)),
        _ => Two { one: 0, other: 0 },
    }
}

// Where half-edges have come: mev, mef and mekr make an edge, semv a vertex between two.
fn coming(links: &[u16], sh: Shape, code: u8, args: &[i32; 8]) -> Two
    ensures { (result ≡ come_of sh links.now (operator_by code args.now)) × (Words result) }
{
    match code {
        3 => ends_of(links, sh, half_by(item_at(args, 2), item_at(args, 4))),
        5 => ends_of(links, sh, half_by(item_at(args, 3), item_at(args, 6))),
        8 => ends_of(links, sh, half_by(item_at(args, 4), item_at(args, 5))),
        11 => {
            let v = item_at(args, 2);
            Two { one: v, other: v }
        }
        _ => Two { one: 0, other: 0 },
    }
}

// One more where half-edges have come.
pub fn raise_starts(links: &mut [u16], sh: Shape, code: u8, args: &[i32; 8])
    ensures { links.new
        ≡ more_starts sh (operator_by code args.now) links.old }
{
    let t = coming(links, sh, code, args);
    raise_both(links, sh, t);
}
