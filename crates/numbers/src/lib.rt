// Numbers in groups of seven bits.

#![tactic(auto)]

ghost use Rattle.std.specs.Prelude.{◌≡◌, ℕ, ◌+◌, ◌-◌, ◌*◌, ◌%◌, ◌≤◌, ◌<◌, length};
ghost use Rattle.std.proofs.lemmas.List.Edits.{sets};
ghost use Rattle.numbers.specs.Number.{read_number, groups};

// Kept: document 01's form: each group by mask and shift.
// Two groups joined: the lower seven bits of `low`, with `high` above them, which has room for 25 bits.
fn join(low: u32, high: u32) -> u32
    requires { high < 33554432 }
    ensures { result ≡ low % 128 + high * 128 }
{
    (low & 0x7f) | (high << 7)
}

// The number that stands at `at`, in any form of at most three groups, and the place behind it.
pub fn read_number(s: &[u8], at: usize) -> Option<(u32, usize)>
    ensures { result ≡ read_number s.now at }
{
    let b0 = u32::from(*s.get(at)?);
    if b0 < 128 {
        return Some((b0, at + 1));
    }
    let b1 = u32::from(*s.get(at + 1)?);
    if b1 < 128 {
        return Some((join(b0, b1), at + 2));
    }
    let b2 = u32::from(*s.get(at + 2)?);
    if b2 < 128 {
        return Some((join(b0, join(b1, b2)), at + 3));
    }
    None
}

// The lowest seven bits.
fn low_group(n: u32) -> u8
    ensures { result ≡ n % 128 }
{
    (n & 0x7f) as u8
}

// The lowest seven bits, with the mark that another group follows.
fn more_group(n: u32) -> u8
    ensures { result ≡ n % 128 + 128 }
{
    ((n & 0x7f) | 0x80) as u8
}

// How many bytes a number takes.
pub fn number_size(n: u32) -> usize
    ensures { result ≡ length (groups n) }
{
    if n < 128 {
        return 1;
    }
    if n < 16384 {
        return 2;
    }
    3
}

// The number's bytes at `at`; the place behind them.
pub fn write_number(out: &mut [u8], at: usize, n: u32) -> usize
    requires { at + length (groups n) ≤ length out.old }
    ensures value { result ≡ at + length (groups n) }
    ensures out_after { out.new ≡ sets out.old at (groups n) }
{
    if n < 128 {
        out[at] = low_group(n);
        return at + 1;
    }
    if n < 16384 {
        out[at] = more_group(n);
        out[at + 1] = low_group(n >> 7);
        return at + 2;
    }
    out[at] = more_group(n);
    out[at + 1] = more_group(n >> 7);
    out[at + 2] = low_group(n >> 14);
    at + 3
}

// The number's bytes, so that they end before `end`; the place where they begin.
pub fn write_before(out: &mut [u8], end: usize, n: u32) -> usize
    requires { (length (groups n) ≤ end) × (end ≤ length out.old) }
    ensures value { result ≡ end - length (groups n) }
    ensures out_after { out.new ≡ sets out.old (end - length (groups n)) (groups n) }
{
    let at = end - number_size(n);
    write_number(out, at, n);
    at
}
