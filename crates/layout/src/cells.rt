// One word of a table, read and written by its place, and by its record and field.
ghost use Rattle.std.specs.Prelude.{◌≡◌, ℕ, ◌+◌, ◌*◌, ◌≤◌, ◌<◌, length, get_or, set};
ghost use Rattle.laws.specs.Columns.{col, store};
ghost use Rattle.layout.specs.Fields.{kind};

// The word at i, and 0 past the end.
pub fn word(links: &[u16], i: usize) -> usize
    ensures { (result ≡ get_or links.now i 0) × (result < 65536) }
{
    if i < links.len() {
        return links[i] as usize;
    }
    0
}

// The word at i set to v; past the end nothing changes.
pub fn put(links: &mut [u16], i: usize, v: usize)
    requires { v < 65536 }
    ensures { links.new ≡ set links.old i v }
{
    if i < links.len() {
        links[i] = v as u16;
    }
}

// Word j of record n of the records of `width` words from `base` on.
pub fn cell(links: &[u16], base: u32, width: u32, j: u32, n: usize) -> usize
    requires { n ≤ 65536 }
    ensures { (result ≡ col (kind base width) j links.now n) × (result < 65536) }
{
    if n == 0 {
        return 0;
    }
    word(links, base as usize + width as usize * (n - 1) + j as usize)
}

// Word j of record n set to v.
pub fn put_cell(links: &mut [u16], base: u32, width: u32, j: u32, n: usize, v: usize)
    requires { (n ≤ 65536) × (v < 65536) }
    ensures { links.new ≡ store (kind base width) j links.old n v }
{
    if n == 0 {
        return;
    }
    put(
        links,
        base as usize + width as usize * (n - 1) + j as usize,
        v,
    );
}
