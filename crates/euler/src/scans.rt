// Scans down a column that says what each record belongs to: how many records name a label, and the least that does.
ghost use Rattle.std.specs.Prelude.{◌≡◌, ℕ, ◌<◌, ◌≤◌};
ghost use Rattle.laws.specs.Search.{least};
ghost use Rattle.laws.specs.Sums.{count_to};
ghost use Rattle.euler.specs.Scans.{naming};

use layout::cells::cell;
use layout::column::Column;
use searching::{count, least};

// Record n names the label.
fn names(links: &[u16], column: Column, label: usize, n: usize) -> bool
    requires { n < 65536 }
    ensures { result ≡ naming column links.now label n }
{
    let owner = cell(links, column.base, column.width, column.word, n);
    owner == label
}

// How many records name the label.
pub fn count_naming(links: &[u16], column: Column, label: usize) -> usize
    requires { column.count < 65536 }
    ensures { (result ≡ count_to column.count (naming column links.now label)) × (result < 65536) }
{
    count(column.count, |n| names(links, column, label, n))
}

// The least record that names the label; 0 where none does.
pub fn least_naming_one(links: &[u16], column: Column, label: usize) -> usize
    requires { column.count < 65536 }
    ensures { (result ≡ least column.count (naming column links.now label)) × (result < 65536) }
{
    least(1, column.count, |n| names(links, column, label, n)).unwrap_or(0)
}
