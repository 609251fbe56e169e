// Passes down one column of a table into an array with an entry for each label: the least record that names it, how
// many do, and the column itself. The arrays are handed in all zero.
ghost use Rattle.std.specs.Prelude.{◌≡◌, ◌+◌, ◌<◌, ◌≤◌, length, get_or, set};
ghost use Rattle.bounds.specs.Bounds.{item_places};
ghost use Rattle.layout.specs.Column.{entry_of};
ghost use Rattle.layout.specs.Layout.{loop_first};
ghost use Rattle.check_orbits.specs.Labels.{blank, least_naming, tally, copied};

use bounds::ITEM_PLACES;
use layout::cells::cell;
use layout::column::Column;
use layout::columns::loop_first;
use layout::shape::Shape;

// The entry at i set to v; past the end nothing changes.
fn put_entry(a: &mut [u16; ITEM_PLACES], i: usize, v: usize)
    requires { (length a.old ≡ item_places) × (v < 65536) }
    ensures { a.new ≡ set a.old i v }
{
    if i < ITEM_PLACES {
        a[i] = v as u16;
    }
}

// One more at i; past the end nothing changes.
fn bump(a: &mut [u16; ITEM_PLACES], i: usize)
    requires { (length a.old ≡ item_places) × (get_or a.old i 0 < 65535) }
    ensures { a.new ≡ set a.old i (get_or a.old i 0 + 1) }
{
    if i < ITEM_PLACES {
        a[i] = a[i] + 1;
    }
}

// For each label the least record whose entry in the column names it. The pass goes down, so that the least is stored
// last.
pub fn least_naming(links: &[u16], column: Column, least: &mut [u16; ITEM_PLACES])
    requires { (column.count < 65536) × (least.old ≡ blank) }
    ensures { least.new ≡ least_naming (entry_of column links.now) column.count blank }
{
    for k in (1..=column.count).rev() {
        let v = cell(links, column.base, column.width, column.word, k);
        put_entry(least, v, k);
    }
}

// For each label how many records name it.
pub fn tally_naming(links: &[u16], column: Column, counts: &mut [u16; ITEM_PLACES])
    requires { (column.count < 65536) × (counts.old ≡ blank) }
    ensures { counts.new ≡ tally (entry_of column links.now) column.count blank }
{
    for k in (1..=column.count).rev() {
        let v = cell(links, column.base, column.width, column.word, k);
        bump(counts, v);
    }
}

// For each loop its first half-edge.
pub fn loop_firsts(links: &[u16], sh: Shape, firsts: &mut [u16; ITEM_PLACES])
    requires { (sh.loops < 65536) × (firsts.old ≡ blank) }
    ensures { firsts.new ≡ copied (loop_first sh links.now) sh.loops blank }
{
    for l in (1..=sh.loops as usize).rev() {
        let k = loop_first(links, sh, l);
        put_entry(firsts, l, k);
    }
}
