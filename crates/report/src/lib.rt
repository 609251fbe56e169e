// The text that the program prints, what the texts of programs are put together from, and how programs read their
// input.
// Kept: the texts are put together by hand of fixed byte strings, document 01's form.

#![tactic(auto)]

ghost use Rattle.std.specs.Prelude.{◌≡◌, ◌+◌, ◌≤◌, length};
ghost use Rattle.std.proofs.lemmas.List.Edits.{sets};
ghost use Rattle.text.specs.Decimal.{decimal};
ghost use Rattle.report.specs.Text.{field, answer_line, count_line, text_of, too_long};

pub mod input;

use table::count::CountAnswer;

// The bytes of a text, from `at` on; the place behind them.
pub fn put_bytes(out: &mut [u8], at: usize, text: &[u8]) -> usize
    requires { at + length text.now ≤ length out.old }
    ensures { (result ≡ at + length text.now)
        × (out.new ≡ sets out.old at text.now) }
{
    let behind = at + text.len();
    out[at..behind].copy_from_slice(text);
    behind
}

// A number in decimal, from `at` on; the place behind it.
fn put_number(out: &mut [u8], at: usize, n: usize) -> usize
    requires { at + 20 ≤ length out.old }
    ensures value { (result ≡ at + length (decimal n)) × (out.new ≡ sets out.old at (decimal n)) }
    ensures upper_bound { result ≤ at + 20 }
{
    let mut digits = [0u8; 20];
    let count = io::decimal(n as u64, &mut digits);
    put_bytes(out, at, &digits[..count])
}

// A label and its number, from `at` on; the place behind them.
pub fn put_field(out: &mut [u8], at: usize, label: &[u8], n: usize) -> usize
    requires { at + length label.now + 20 ≤ length out.old }
    ensures value { (result ≡ at + length (field label.now n))
        × (out.new ≡ sets out.old at (field label.now n)) }
    ensures upper_bound { result ≤ at + length label.now + 20 }
{
    let behind = put_bytes(out, at, label);
    put_number(out, behind, n)
}

// The first line, at the front; the place behind it.
fn put_answer_line(out: &mut [u8; 256], refusal: u8, done: usize, used: usize) -> usize
    ensures value { (result ≡ length (answer_line refusal done used))
        × (out.new ≡ sets out.old 0 (answer_line refusal done used)) }
    ensures upper_bound { result ≤ 81 }
{
    let a = put_field(out, 0, b"refusal ", refusal as usize);
    let b = put_field(out, a, b" done ", done);
    let d = put_field(out, b, b" used ", used);
    put_bytes(out, d, b"\n")
}

// The second line, from `at` on; the place behind it.
fn put_count_line(out: &mut [u8; 256], at: usize, c: CountAnswer) -> usize
    requires { at ≤ 81 }
    ensures value { (result ≡ at + length (count_line c)) × (out.new ≡ sets out.old at (count_line c)) }
    ensures upper_bound { result ≤ at + 161 }
{
    let s = put_field(out, at, b"s ", c.solids);
    let f = put_field(out, s, b" f ", c.faces);
    let l = put_field(out, f, b" l ", c.loops);
    let e = put_field(out, l, b" e ", c.edges);
    let v = put_field(out, e, b" v ", c.vertices);
    let r = put_field(out, v, b" r ", c.rings);
    let h = put_field(out, r, b" h ", c.holes);
    put_bytes(out, h, b"\n")
}

// The two lines on a run and the table it left, at the front; how long they are. Ten numbers of at most twenty digits
// and 42 bytes of labels always fit, and what stands behind them stays.
pub fn text(out: &mut [u8; 256], refusal: u8, done: usize, used: usize, c: CountAnswer) -> usize
    ensures value { (result ≡ length (text_of refusal done used c))
        × (out.new ≡ sets out.old 0 (text_of refusal done used c)) }
    ensures upper_bound { result ≤ 256 }
{
    let at = put_answer_line(out, refusal, done, used);
    put_count_line(out, at, c)
}

// The line on an input that is too long, at the front; how long it is. What stands behind it stays.
pub fn too_long(out: &mut [u8; 256]) -> usize
    ensures { (result ≡ length too_long) × (out.new ≡ sets out.old 0 too_long) }
{
    put_bytes(out, 0, b"input too long\n")
}
